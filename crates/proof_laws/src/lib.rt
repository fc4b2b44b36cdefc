//! What the definitions mean: isolation of handles; laws on packets, outcomes of shares, statuses, steps that change nothing, and whose
//! time is over; laws that every run obeys; and worked rows, with the lines that a reader of the rules expects.
//!
//! The one promise: the definitions compute these lines, and meet the rules of the standards, which are said here once more as
//! relations.
//!
//! # Files
//!
//! - `isolation.rt`, specs/Isolation: what a handle sees is what it sees alone; specs/Holders and Whose: who holds what, and whose a step is,
//!   read off the world; specs/InCallbacks: when a transfer is in its callback
//! - `runs.rt`: the laws of every run, stated in `usb_model` (specs/Laws); specs/Instances: computed at worked rows
//! - `laws.rt`, specs/Packets, Outcomes, Statuses, Nothing, Dues: what single definitions mean
//! - `rows.rt`, specs/Rows: worked rows
//!
//! # Contracts
//!
//! The laws of isolation; `held_elsewhere` and `whose` hold at every world, also where no run leads to it:
//!
//! - `isolation::purge`: what a handle sees of a run is what it sees alone over its own steps; and that is what the system does where no
//!   other handle makes a step
//! - `isolation::states`: where a run ends, the world is to the handle what its machine is alone
//! - `isolation::callbacks`: each transfer is called back at most once, after its number was given; at each endpoint those that were
//!   neither cancelled nor timed out in order
//! - `isolation::plans`: what a handle's part of a plan stands for, under the rules of its own submissions, is the
//!   handle's part of what the plan stands for. A rule that is Free counts as one that stops
//! - `isolation::plan_steps`: what a plan stands for by `expand`, it may stand for by `Expands`; where no rule is Free, it
//!   may stand for nothing else
//! - `isolation::held_elsewhere`: a Claim is refused 5, "another handle holds an interface", just where its caller has
//!   opened a device that isn't gone, the device has the interface, and another handle holds it; a Reset just where
//!   its caller has opened a device that isn't gone, each endpoint whose interface the caller holds is quiet, and
//!   another handle holds an interface of the device; any other step never. Then the world stays as it was
//! - `isolation::whose`: the owner of an entry is the caller; for Serve, who holds the endpoint's interface; for Command,
//!   Deliver and Take, the name of the first piece. There is none just for an Unplug, a Serve of an endpoint that has
//!   no interface or a free one, and a Command, Deliver or Take of an empty list. Such a step, but for an Unplug, is
//!   idle and changes nothing
//! - `isolation::in_callbacks`: in every world that a run leads to: a Take brings the transfer of its result into its
//!   callback, with the status and the round that the callback is told; a verdict that isn't refused takes it out; no
//!   other step touches it. A number is given to a submission alone, and is then in no callback
//!
//! Worked rows, what single definitions mean, and the laws of every run:
//!
//! - `rows::transfers`, `halting`, `cancelling`, `handles`, `callbacks`, `unplugging`, `refusals`, `requests`,
//!   `closing`, `places`, `devices`, `answers`, `feeding`, `statuses`: the definitions print the lines of 78 worked rows, a
//!   clause a row
//! - `rows::steps`: the same of five rows that no scenario says, or none of a few lines: other bytes from a callback,
//!   the longest write, requests of unsupported kinds, the last number
//! - `rows::dues`: `due` at 21 moments of six runs: two names at two devices, no timeout, the largest moment, a
//!   transfer that is submitted again, and transfers that were asked to end or have ended
//! - `rows::alone`: seven times they print those of one handle, shared and alone over its own steps
//!
//! - `laws::packets`: the packets of an OUT transfer, joined, are its bytes; all but the last are full; the last is
//!   empty just where there are no bytes, or where ADD_ZERO_PACKET is set and the bytes are a multiple of the packet
//!   size. Premise: a packet size of at least 1
//! - `laws::outcomes`: what comes of a share, both ways: its outcome is o exactly where the share, naks aside, is so
//!   many whole packets with room behind them (or acknowledgements of so many packets) and then nothing, a stall, a
//!   failure, or a last packet that is too long, makes up the length, or is short. Premise: a packet size of at least
//!   1. And a share that ended a transfer has no outcome with anything but naks behind it, at a device that isn't
//!   halted
//! - `laws::statuses`: each status is told exactly where code, device and ask say so, for every code (docs/MODEL.md,
//!   Status)
//! - `laws::idle_and_refused`: a step of nobody, but for an Unplug, is idle and changes nothing; a refused step
//!   changes nothing: every step, every world
//! - `laws::dues`: `due` at any moment, of any list of dated places, has an Expire of a transfer exactly where: its
//!   name is one of 64; it is in progress, which is that it stands in the line of an endpoint of the device that the
//!   name has open, of an interface that the name holds, and isn't blank; nobody asked it to end; its timeout isn't
//!   0; and the moment of the first place that gave its number, plus the timeout, but 2^64 - 1 at most, isn't after
//!   this one. It has nothing else, each once, by rising name, and for one name by rising number
//! - `runs::cut`: at each endpoint, since it was last made new: there is one share of the device's script for each
//!   transfer, in order of submission, and each end, each result with its number, request, round, status, length and
//!   bytes, and each packet that the device took is read off that share; what ended at a gone device is told as of
//!   one; and no result and no ask is of a transfer that wasn't accepted there (docs/MODEL.md has the law in full).
//!   Premises: no acknowledgement in an IN script, no data in an OUT script; a packet size of at least 1, or no empty
//!   packet in the script
//! - `runs::places`: each number that was given is in progress, or in one result that waits, or was called back: just one of these,
//!   once; no other number is anywhere
//! - `runs::called`: over every run, the results that a handle's steps made are, in order, those of its `Called`
//!   entries and then those that wait: handle, number, endpoint, round, status, actual length and bytes, field by
//!   field. Each transfer that is in its callback has number, request, round and status of one of the results that
//!   were called back
//! - `runs::asked_ends`: a transfer for which a Cancel or Expire was accepted has its one result by its endpoint's
//!   17th Deliver since; while it is in progress an order or a piece of news of its endpoint waits, and at most 2
//!   Commands and 16 Delivers were the endpoint's. That they are made isn't promised
//! - `runs::bounds`: where any run ends, of each endpoint of a handle: at most 16 transfers are in its line, 1 order
//!   and 17 pieces of news wait, and the transfers in progress and the results that wait are at most 16 together. A
//!   transfer's round is at most its number, in each line, result and callback
//! - `runs::instances`: computed at worked rows: the bounds are reached; three rounds are called back as they were
//!   made; scripts are cut behind a stall, and at a gone device. At the packet size 0 a read is accepted, and with an
//!   empty packet its script isn't cut
#![tactic(auto)]

pub mod isolation;
pub mod laws;
pub mod rows;
pub mod runs;

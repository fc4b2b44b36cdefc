//! The answers of a device that a transfer takes: those that it took, and the one that comes now.

ghost use Rattle.std.specs.Prelude.{◌≡◌, ◌==◌, ◌<◌, ℕ, suc, List, [], ◌∷◌, ◌++◌, length, drop, IfSome, MatchOption, if◌then◌else◌};
ghost use Rattle.usb_model.specs.declared.response.Response.{Response};
ghost use Rattle.usb_model.specs.Endpoint.Packets.{acks, full_front, without_naks};
ghost use Rattle.usb_model.specs.Endpoint.Serve.{next_answer};
ghost use Rattle.trace_explain.specs.Answers.{answers_in};

use usb_model::{Endpoint, Item, Response};

/// The answers that a transfer took, and behind them what it takes now. Contracts see the list of them, by `answers_in`.
#[derive(Clone, Copy)]
pub(crate) struct Answers<'a> {
    /// Those that it took.
    pub taken: &'a [Response],
    /// The one that comes now, if one does.
    pub next: &'a [Response],
}

/// The answer that is taken now: none of a halted device, which stalls, and none at the script's end.
pub(crate) fn next_answer(endpoint: &Endpoint) -> &[Response]
    ensures { result.now ≡ next_answer endpoint.now }
{
    let script = endpoint.script_left.as_slice();
    if endpoint.device_halted || script.is_empty() {
        &[]
    } else {
        &script[..1]
    }
}

/// The first of these answers but for naks, which move nothing and end nothing, and what stands behind it.
fn first_answer(share: &[Response]) -> Option<(&Response, &[Response])>
    ensures first { MatchOption result
        (without_naks share.now ≡ [])
        (λ p. without_naks share.now ≡ p.0.now ∷ without_naks p.1.now) }
    ensures shorter { IfSome result (λ p. length p.1.now < length share.now) }
{
    for (i, answer) in share.iter().enumerate() {
        if !answer.is_nak() {
            return Some((answer, &share[i + 1..]));
        }
    }
    None
}

/// Whether an answer is a packet of exactly this size.
fn is_full(size: usize, answer: &Response) -> bool
    ensures { (k : ℕ) (xs : List Response) → length (full_front size (suc k) (answer.now ∷ xs)) ≡ (if result then suc (length (full_front size k xs)) else 0) }
{
    match answer {
        Response::Data(bytes) => bytes.len() == size,
        _ => false,
    }
}

impl<'a> Answers<'a> {
    /// Those of a transfer that is served now.
    pub fn of(endpoint: &'a Endpoint, item: &'a Item) -> Answers<'a>
        ensures { answers_in result ≡ item.now.share ++ next_answer endpoint.now }
    {
        Answers {
            taken: item.share.as_slice(),
            next: next_answer(endpoint),
        }
    }

    /// How many there are.
    pub fn is_empty(&self) -> bool
        ensures { result ≡ (length (answers_in self.now) == 0) }
    {
        self.taken.is_empty() && self.next.is_empty()
    }

    /// The first but for naks, and what stands behind it.
    pub fn first(&self) -> Option<(&'a Response, Answers<'a>)>
        ensures first { MatchOption result
            (without_naks (answers_in self.now) ≡ [])
            (λ p. without_naks (answers_in self.now) ≡ p.0.now ∷ without_naks (answers_in p.1)) }
        ensures shorter { IfSome result (λ p. length (answers_in p.1) < length (answers_in self.now)) }
    {
        let next = self.next;
        if let Some((answer, taken)) = first_answer(self.taken) {
            return Some((answer, Answers { taken, next }));
        }
        match first_answer(next) {
            None => None,
            Some((answer, next)) => Some((answer, Answers { taken: &[], next })),
        }
    }

    /// OUT: how many acknowledgements stand in front, and what stands behind them.
    pub fn acks(&self) -> (usize, Answers<'a>)
        ensures count { result.0 ≡ acks (without_naks (answers_in self.now)) }
        ensures behind { without_naks (answers_in result.1) ≡ drop result.0 (without_naks (answers_in self.now)) }
    {
        let mut count = 0_usize;
        let mut rest = *self;
        while let Some((Response::Ack, behind)) = rest.first() {
            count += 1;
            rest = behind;
        }
        (count, rest)
    }

    /// IN: how many packets of exactly this size stand in front, no more than so many, and what stands behind them.
    pub fn full_front(&self, size: usize, most: usize) -> (usize, Answers<'a>)
        ensures count { result.0 ≡ length (full_front size most (without_naks (answers_in self.now))) }
        ensures behind { without_naks (answers_in result.1) ≡ drop result.0 (without_naks (answers_in self.now)) }
    {
        let mut count = 0_usize;
        let mut rest = *self;
        while count < most {
            let Some((answer, behind)) = rest.first() else {
                return (count, rest);
            };
            if !is_full(size, answer) {
                return (count, rest);
            }
            count += 1;
            rest = behind;
        }
        (count, rest)
    }
}

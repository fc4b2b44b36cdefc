//! Worked rows: the definitions compute what the standards' and the library's users expect. Each is a law
//! over definitions, the contract of a function with an empty body.

ghost use Rattle.proof_laws.specs.Rows.{FallDue, Prints, PrintsAlone, StepsPrint};
ghost use Rattle.proof_laws.specs.Rows.Transfers.{empty_scenario, bulk_in_eight_bytes, short_third_packet, short_is_not_ok, zero_length_in, zero_length_in_babble, two_transfers_in_order, seventeen_submissions, read_over_the_limit, out_with_zero_packet};
ghost use Rattle.proof_laws.specs.Rows.Halts.{babble_then_recovery, three_babbles, stall_and_clear_halt, cancel_loses_to_stall, stall_beside_cancel};
ghost use Rattle.proof_laws.specs.Rows.Cancels.{cancel_amid_transfer, cancel_after_served, cancel_in_the_middle, pause_before_the_zero_packet, expire_without_timeout, cancel_then_expire, expire_then_cancel, cancel_amid_move, second_cancel_repeats_nothing, cancel_at_its_bound};
ghost use Rattle.proof_laws.specs.Rows.Handles.{refusals_of_handles, reset_with_other_holder, interface_changes_hands, close_waits_for_quiet, close_waits_for_errand};
ghost use Rattle.proof_laws.specs.Rows.Callbacks.{resubmit_three_rounds, resubmit_until_stall, again_without_a_place, again_at_a_gone_device};
ghost use Rattle.proof_laws.specs.Rows.Unplugs.{unplug_amid_transfers, unplug_of_nothing};
ghost use Rattle.proof_laws.specs.Rows.Alone.{stall_beside_cancel_alone_1, stall_beside_cancel_alone_2, interface_changes_hands_alone_2, two_handles_two_rules_alone_1, two_handles_two_rules_alone_2, unplug_amid_transfers_alone_2, fed_answers_alone};
ghost use Rattle.proof_laws.specs.Rows.Refusals.{refusals_of_open, handle_that_is_not_open, interface_that_is_not_held, calls_amid_a_transfer};
ghost use Rattle.proof_laws.specs.Rows.Requests.{unsupported_endpoints, bad_requests_at_a_full_endpoint, refused_asks, answers_of_no_callback};
ghost use Rattle.proof_laws.specs.Rows.Closes.{close_frees_its_interfaces, numbers_go_on_behind_a_close, result_that_waits_is_in_the_way, errand_is_in_the_way, release_looks_at_one_interface, claim_of_what_is_held, reset_ends_a_halt};
ghost use Rattle.proof_laws.specs.Rows.Places.{blanks_behind_a_failed_transfer, blanks_behind_a_completed_transfer, sixteen_places_at_each_endpoint};
ghost use Rattle.proof_laws.specs.Rows.Devices.{two_devices_one_unplugged, four_devices_one_unplugged, served_before_the_unplug, unplug_amid_packets, cancel_at_a_gone_device, cancel_loses_to_the_unplug};
ghost use Rattle.proof_laws.specs.Rows.Answers.{broken_at_first, broken_amid_packets, broken_behind_a_cancel, stall_amid_out, stall_and_babble_amid_reads, cancel_behind_a_stall};
ghost use Rattle.proof_laws.specs.Rows.Feeds.{fed_amid_a_transfer, fed_behind_a_serve, fed_at_the_very_end, fed_behind_its_script, fed_over_a_claim, fed_over_a_reset, fed_at_a_stall, fed_to_an_out_endpoint, fed_to_two_devices, fed_behind_an_unplug};
ghost use Rattle.proof_laws.specs.Rows.Statuses.{every_status, every_flag};
ghost use Rattle.proof_laws.specs.Rows.Steps.{again_with_other_bytes, again_with_bytes_for_in, write_over_the_limit, requests_of_unsupported_kinds, last_number_is_given_to_none};
ghost use Rattle.proof_laws.specs.Rows.Dues.{two_names_at_two_devices, no_timeout_is_never_due, no_deadline_is_later, submitted_again_begins_anew, asked_already, ended_already};

/// Transfers by themselves.
pub fn transfers()
    ensures empty_scenario { Prints empty_scenario }
    ensures bulk_in_eight_bytes { Prints bulk_in_eight_bytes }
    ensures short_third_packet { Prints short_third_packet }
    ensures short_is_not_ok { Prints short_is_not_ok }
    ensures zero_length_in { Prints zero_length_in }
    ensures zero_length_in_babble { Prints zero_length_in_babble }
    ensures two_transfers_in_order { Prints two_transfers_in_order }
    ensures seventeen_submissions { Prints seventeen_submissions }
    ensures read_over_the_limit { Prints read_over_the_limit }
    ensures out_with_zero_packet { Prints out_with_zero_packet }
{}

/// Ways into a halt, and out of it.
pub fn halting()
    ensures babble_then_recovery { Prints babble_then_recovery }
    ensures three_babbles { Prints three_babbles }
    ensures stall_and_clear_halt { Prints stall_and_clear_halt }
    ensures cancel_loses_to_stall { Prints cancel_loses_to_stall }
    ensures stall_beside_cancel { Prints stall_beside_cancel }
{}

/// Transfers that are asked to end.
pub fn cancelling()
    ensures cancel_amid_transfer { Prints cancel_amid_transfer }
    ensures cancel_after_served { Prints cancel_after_served }
    ensures cancel_in_the_middle { Prints cancel_in_the_middle }
    ensures pause_before_the_zero_packet { Prints pause_before_the_zero_packet }
    ensures expire_without_timeout { Prints expire_without_timeout }
    ensures cancel_then_expire { Prints cancel_then_expire }
    ensures expire_then_cancel { Prints expire_then_cancel }
    ensures cancel_amid_move { Prints cancel_amid_move }
    ensures second_cancel_repeats_nothing { Prints second_cancel_repeats_nothing }
    ensures cancel_at_its_bound { Prints cancel_at_its_bound }
{}

/// Handles and what they hold.
pub fn handles()
    ensures refusals_of_handles { Prints refusals_of_handles }
    ensures reset_with_other_holder { Prints reset_with_other_holder }
    ensures interface_changes_hands { Prints interface_changes_hands }
    ensures close_waits_for_quiet { Prints close_waits_for_quiet }
    ensures close_waits_for_errand { Prints close_waits_for_errand }
{}

/// Callbacks that submit again.
pub fn callbacks()
    ensures resubmit_three_rounds { Prints resubmit_three_rounds }
    ensures resubmit_until_stall { Prints resubmit_until_stall }
    ensures again_without_a_place { Prints again_without_a_place }
    ensures again_at_a_gone_device { Prints again_at_a_gone_device }
{}

/// Devices that go.
pub fn unplugging()
    ensures unplug_amid_transfers { Prints unplug_amid_transfers }
    ensures unplug_of_nothing { Prints unplug_of_nothing }
{}

/// One handle of several, alone.
pub fn alone()
    ensures stall_beside_cancel_alone_1 { PrintsAlone stall_beside_cancel_alone_1 1 }
    ensures stall_beside_cancel_alone_2 { PrintsAlone stall_beside_cancel_alone_2 2 }
    ensures interface_changes_hands_alone_2 { PrintsAlone interface_changes_hands_alone_2 2 }
    ensures two_handles_two_rules_alone_1 { PrintsAlone two_handles_two_rules_alone_1 1 }
    ensures two_handles_two_rules_alone_2 { PrintsAlone two_handles_two_rules_alone_2 2 }
    ensures unplug_amid_transfers_alone_2 { PrintsAlone unplug_amid_transfers_alone_2 2 }
    ensures fed_answers_alone { PrintsAlone fed_answers_alone 2 }
{}

/// Refusals of a handle's calls.
pub fn refusals()
    ensures refusals_of_open { Prints refusals_of_open }
    ensures handle_that_is_not_open { Prints handle_that_is_not_open }
    ensures interface_that_is_not_held { Prints interface_that_is_not_held }
    ensures calls_amid_a_transfer { Prints calls_amid_a_transfer }
{}

/// Refusals of submissions, asks and answers.
pub fn requests()
    ensures unsupported_endpoints { Prints unsupported_endpoints }
    ensures bad_requests_at_a_full_endpoint { Prints bad_requests_at_a_full_endpoint }
    ensures refused_asks { Prints refused_asks }
    ensures answers_of_no_callback { Prints answers_of_no_callback }
{}

/// Interfaces that are given back.
pub fn closing()
    ensures close_frees_its_interfaces { Prints close_frees_its_interfaces }
    ensures numbers_go_on_behind_a_close { Prints numbers_go_on_behind_a_close }
    ensures result_that_waits_is_in_the_way { Prints result_that_waits_is_in_the_way }
    ensures errand_is_in_the_way { Prints errand_is_in_the_way }
    ensures release_looks_at_one_interface { Prints release_looks_at_one_interface }
    ensures claim_of_what_is_held { Prints claim_of_what_is_held }
    ensures reset_ends_a_halt { Prints reset_ends_a_halt }
{}

/// Places of an endpoint.
pub fn places()
    ensures blanks_behind_a_failed_transfer { Prints blanks_behind_a_failed_transfer }
    ensures blanks_behind_a_completed_transfer { Prints blanks_behind_a_completed_transfer }
    ensures sixteen_places_at_each_endpoint { Prints sixteen_places_at_each_endpoint }
{}

/// Several devices, and unplugged ones.
pub fn devices()
    ensures two_devices_one_unplugged { Prints two_devices_one_unplugged }
    ensures four_devices_one_unplugged { Prints four_devices_one_unplugged }
    ensures served_before_the_unplug { Prints served_before_the_unplug }
    ensures unplug_amid_packets { Prints unplug_amid_packets }
    ensures cancel_at_a_gone_device { Prints cancel_at_a_gone_device }
    ensures cancel_loses_to_the_unplug { Prints cancel_loses_to_the_unplug }
{}

/// Answers of a device that end a transfer badly.
pub fn answers()
    ensures broken_at_first { Prints broken_at_first }
    ensures broken_amid_packets { Prints broken_amid_packets }
    ensures broken_behind_a_cancel { Prints broken_behind_a_cancel }
    ensures stall_amid_out { Prints stall_amid_out }
    ensures stall_and_babble_amid_reads { Prints stall_and_babble_amid_reads }
    ensures cancel_behind_a_stall { Prints cancel_behind_a_stall }
{}

/// Answers that lines further down feed.
pub fn feeding()
    ensures fed_amid_a_transfer { Prints fed_amid_a_transfer }
    ensures fed_behind_a_serve { Prints fed_behind_a_serve }
    ensures fed_at_the_very_end { Prints fed_at_the_very_end }
    ensures fed_behind_its_script { Prints fed_behind_its_script }
    ensures fed_over_a_claim { Prints fed_over_a_claim }
    ensures fed_over_a_reset { Prints fed_over_a_reset }
    ensures fed_at_a_stall { Prints fed_at_a_stall }
    ensures fed_to_an_out_endpoint { Prints fed_to_an_out_endpoint }
    ensures fed_to_two_devices { Prints fed_to_two_devices }
    ensures fed_behind_an_unplug { Prints fed_behind_an_unplug }
{}

/// Each status and each flag.
pub fn statuses()
    ensures every_status { Prints every_status }
    ensures every_flag { Prints every_flag }
{}

/// What no scenario says.
pub fn steps()
    ensures again_with_other_bytes { StepsPrint again_with_other_bytes }
    ensures again_with_bytes_for_in { StepsPrint again_with_bytes_for_in }
    ensures write_over_the_limit { StepsPrint write_over_the_limit }
    ensures requests_of_unsupported_kinds { StepsPrint requests_of_unsupported_kinds }
    ensures last_number_is_given_to_none { StepsPrint last_number_is_given_to_none }
{}

/// Whose time is over, at some moments (libusb_transfer, timeout).
pub fn dues()
    ensures two_names_at_two_devices { FallDue two_names_at_two_devices }
    ensures no_timeout_is_never_due { FallDue no_timeout_is_never_due }
    ensures no_deadline_is_later { FallDue no_deadline_is_later }
    ensures submitted_again_begins_anew { FallDue submitted_again_begins_anew }
    ensures asked_already { FallDue asked_already }
    ensures ended_already { FallDue ended_already }
{}

//! What the command line's definition makes of its words. A law is the contract of a function with an empty body.

ghost use Rattle.std.specs.Prelude.{◌<◌, ◌∷◌, [], ℕ, true, false, List, codes};
ghost use Rattle.std.specs.Fmt.{decimal};
ghost use Rattle.trace_io.specs.CommandLine.{AreBad, AskFor, AskForHelp};
ghost use Rattle.trace_faults.specs.declared.text_reader.TextReader.TheVariants.{Library, Scenario};
ghost use Rattle.trace_io.specs.declared.words.Task.TheVariants.{Run, Steps, Packets, Alone, Live, Left, Check, Draw, Page, Capture, Devices, Explain, Test, Device, Describe};

/// Whatever name the program is called by: `run` asks for a run, `run --steps` for a run step by step, `run --packets` for one with its
/// packets, `run --packets --steps` for both, in either order, `alone H` for each of the 64 handles alone, a plus sign or leading zeros before its number included, `live` for a run in threads of
/// a million callbacks at most, `live --rounds 25` for one of 25, `left` for what is left, `check` for a check, `draw` for
/// a picture, `draw --from 11 --to 20` for one of ten steps, `capture` for a capture, `devices` for the devices of one, `devices --scenario` for those of a scenario, `draw --html`
/// for a page, `explain` for reasons, `test` for a test, `device` and `describe` for a descriptor's line and table, and `-h` for help. No words, a second
/// word after `run`, `live`, `left`, `check`, `capture`, `devices` or `test`, no handle or the handle 64 after `alone`, no number after `--rounds`, a step 0 and `help` are bad.
pub fn words()
    ensures run { (name : List ℕ) → AskFor (name ∷ codes "run" ∷ []) Run }
    ensures steps { (name : List ℕ) → AskFor (name ∷ codes "run" ∷ codes "--steps" ∷ []) Steps }
    ensures packets { (name : List ℕ) → AskFor (name ∷ codes "run" ∷ codes "--packets" ∷ []) (Packets false) }
    ensures both { (name : List ℕ) → AskFor (name ∷ codes "run" ∷ codes "--packets" ∷ codes "--steps" ∷ []) (Packets true) }
    ensures both_turned { (name : List ℕ) → AskFor (name ∷ codes "run" ∷ codes "--steps" ∷ codes "--packets" ∷ []) (Packets true) }
    ensures alone { (name : List ℕ) (h : ℕ) → h < 64 → AskFor (name ∷ codes "alone" ∷ decimal h ∷ []) (Alone h) }
    ensures plus_sign { (name : List ℕ) → AskFor (name ∷ codes "alone" ∷ codes "+5" ∷ []) (Alone 5) }
    ensures leading_zeros { (name : List ℕ) → AskFor (name ∷ codes "alone" ∷ codes "007" ∷ []) (Alone 7) }
    ensures live { (name : List ℕ) → AskFor (name ∷ codes "live" ∷ []) (Live 1000000) }
    ensures rounds { (name : List ℕ) → AskFor (name ∷ codes "live" ∷ codes "--rounds" ∷ codes "25" ∷ []) (Live 25) }
    ensures left { (name : List ℕ) → AskFor (name ∷ codes "left" ∷ []) Left }
    ensures check { (name : List ℕ) → AskFor (name ∷ codes "check" ∷ []) Check }
    ensures draw { (name : List ℕ) → AskFor (name ∷ codes "draw" ∷ []) (Draw 1 18446744073709551615) }
    ensures part { (name : List ℕ) → AskFor (name ∷ codes "draw" ∷ codes "--from" ∷ codes "11" ∷ codes "--to" ∷ codes "20" ∷ []) (Draw 11 20) }
    ensures capture { (name : List ℕ) → AskFor (name ∷ codes "capture" ∷ []) Capture }
    ensures devices { (name : List ℕ) → AskFor (name ∷ codes "devices" ∷ []) (Devices Library) }
    ensures devices_of_a_scenario { (name : List ℕ) → AskFor (name ∷ codes "devices" ∷ codes "--scenario" ∷ []) (Devices Scenario) }
    ensures page { (name : List ℕ) → AskFor (name ∷ codes "draw" ∷ codes "--html" ∷ []) (Page 1 18446744073709551615) }
    ensures explain { (name : List ℕ) → AskFor (name ∷ codes "explain" ∷ []) Explain }
    ensures test { (name : List ℕ) → AskFor (name ∷ codes "test" ∷ []) Test }
    ensures device { (name : List ℕ) → AskFor (name ∷ codes "device" ∷ []) Device }
    ensures describe { (name : List ℕ) → AskFor (name ∷ codes "describe" ∷ []) Describe }
    ensures help { (name : List ℕ) → AskForHelp (name ∷ codes "-h" ∷ []) }
    ensures no_words { (name : List ℕ) → AreBad (name ∷ []) }
    ensures too_many { (name : List ℕ) → AreBad (name ∷ codes "run" ∷ codes "1" ∷ []) }
    ensures check_of_a_file { (name : List ℕ) → AreBad (name ∷ codes "check" ∷ codes "1" ∷ []) }
    ensures live_with_a_word { (name : List ℕ) → AreBad (name ∷ codes "live" ∷ codes "1" ∷ []) }
    ensures no_rounds { (name : List ℕ) → AreBad (name ∷ codes "live" ∷ codes "--rounds" ∷ codes "many" ∷ []) }
    ensures step_0 { (name : List ℕ) → AreBad (name ∷ codes "draw" ∷ codes "--from" ∷ codes "0" ∷ []) }
    ensures left_with_a_word { (name : List ℕ) → AreBad (name ∷ codes "left" ∷ codes "1" ∷ []) }
    ensures capture_of_a_file { (name : List ℕ) → AreBad (name ∷ codes "capture" ∷ codes "1" ∷ []) }
    ensures devices_of_a_file { (name : List ℕ) → AreBad (name ∷ codes "devices" ∷ codes "1" ∷ []) }
    ensures test_with_a_word { (name : List ℕ) → AreBad (name ∷ codes "test" ∷ codes "1" ∷ []) }
    ensures no_handle { (name : List ℕ) → AreBad (name ∷ codes "alone" ∷ []) }
    ensures handle_64 { (name : List ℕ) → AreBad (name ∷ codes "alone" ∷ codes "64" ∷ []) }
    ensures no_help { (name : List ℕ) → AreBad (name ∷ codes "help" ∷ []) }
{}

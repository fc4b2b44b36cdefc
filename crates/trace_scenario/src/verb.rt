//! The first words of lines.

ghost use Rattle.std.specs.Prelude.{◌≡◌};
ghost use Rattle.trace_scenario.specs.Verb.{verb_of};

use crate::near::is_near;

/// What a line is about: its first word.
#[derive(Clone, Copy, PartialEq, Eq, Debug)]
pub enum Verb {
    /// `device`
    Device,
    /// `script`
    Script,
    /// `feed`
    Feed,
    /// `open`
    Open,
    /// `close`
    Close,
    /// `claim`
    Claim,
    /// `release`
    Release,
    /// `reset`
    Reset,
    /// `clear`
    Clear,
    /// `submit`
    Submit,
    /// `cancel`
    Cancel,
    /// `expire`
    Expire,
    /// `serve`
    Serve,
    /// `command`
    Command,
    /// `deliver`
    Deliver,
    /// `take`
    Take,
    /// `return`
    Return,
    /// `unplug`
    Unplug,
}

/// All verbs.
const ALL: [Verb; 18] = [
    Verb::Device,
    Verb::Script,
    Verb::Feed,
    Verb::Open,
    Verb::Close,
    Verb::Claim,
    Verb::Release,
    Verb::Reset,
    Verb::Clear,
    Verb::Submit,
    Verb::Cancel,
    Verb::Expire,
    Verb::Serve,
    Verb::Command,
    Verb::Deliver,
    Verb::Take,
    Verb::Return,
    Verb::Unplug,
];

impl Verb {
    /// The verb of a word. Those of which long plans have most stand first: the words are compared in this order.
    #[tactic(auto, unfolding(crate::specs::Verb::verb_of))]
    pub(crate) fn read(word: &str) -> Option<Verb>
        ensures { result ≡ verb_of word.now }
    {
        match word {
            "submit" => Some(Verb::Submit),
            "serve" => Some(Verb::Serve),
            "deliver" => Some(Verb::Deliver),
            "take" => Some(Verb::Take),
            "return" => Some(Verb::Return),
            "command" => Some(Verb::Command),
            "feed" => Some(Verb::Feed),
            "device" => Some(Verb::Device),
            "script" => Some(Verb::Script),
            "open" => Some(Verb::Open),
            "close" => Some(Verb::Close),
            "claim" => Some(Verb::Claim),
            "release" => Some(Verb::Release),
            "reset" => Some(Verb::Reset),
            "clear" => Some(Verb::Clear),
            "cancel" => Some(Verb::Cancel),
            "expire" => Some(Verb::Expire),
            "unplug" => Some(Verb::Unplug),
            _ => None,
        }
    }

    /// The words of a line that begins so, for a person.
    pub fn form(self) -> &'static str {
        match self {
            Verb::Device => "device D HEX",
            Verb::Script => "script D EP A A ..",
            Verb::Feed => "feed D EP A A ..",
            Verb::Open => "open H D",
            Verb::Close => "close H",
            Verb::Claim => "claim H I",
            Verb::Release => "release H I",
            Verb::Reset => "reset H",
            Verb::Clear => "clear H EP",
            Verb::Submit => "submit H EP K B options",
            Verb::Cancel => "cancel H N",
            Verb::Expire => "expire H N",
            Verb::Serve => "serve D EP",
            Verb::Command => "command",
            Verb::Deliver => "deliver",
            Verb::Take => "take",
            Verb::Return => "return H N",
            Verb::Unplug => "unplug D",
        }
    }

    /// Its word, with which its form begins.
    pub fn word(self) -> &'static str {
        let form = self.form();
        match form.split_once(' ') {
            Some((word, _)) => word,
            None => form,
        }
    }

    /// The first verb whose word a word is almost.
    pub(crate) fn near(word: &str) -> Option<Verb> {
        ALL.iter().find(|verb| is_near(word, verb.word())).copied()
    }
}

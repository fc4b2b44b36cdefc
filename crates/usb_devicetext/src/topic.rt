//! The first words of lines.

ghost use Rattle.std.specs.Prelude.{◌≡◌};
ghost use Rattle.usb_devicetext.specs.Topic.{topic_of};

/// What a line is about: its first word.
#[derive(Clone, Copy, PartialEq, Eq, Debug)]
pub enum Topic {
    /// `device`
    Device,
    /// `script`
    Script,
    /// `ids`
    Ids,
    /// `class`
    Class,
    /// `descriptor`
    Descriptor,
    /// `string`
    Text,
    /// `speed`
    Speed,
    /// `control`
    Control,
    /// `after`
    After,
    /// `leaves`
    Leaves,
    /// `hidden`
    Hidden,
    /// `anew`
    Anew,
    /// `lasts`
    Lasts,
    /// `driver`
    Driver,
}

impl Topic {
    /// The topic of a word.
    #[tactic(auto, unfolding(crate::specs::Topic::topic_of))]
    pub(crate) fn read(word: &str) -> Option<Topic>
        ensures { result ≡ topic_of word.now }
    {
        match word {
            "device" => Some(Topic::Device),
            "script" => Some(Topic::Script),
            "ids" => Some(Topic::Ids),
            "class" => Some(Topic::Class),
            "descriptor" => Some(Topic::Descriptor),
            "string" => Some(Topic::Text),
            "speed" => Some(Topic::Speed),
            "control" => Some(Topic::Control),
            "after" => Some(Topic::After),
            "leaves" => Some(Topic::Leaves),
            "hidden" => Some(Topic::Hidden),
            "anew" => Some(Topic::Anew),
            "lasts" => Some(Topic::Lasts),
            "driver" => Some(Topic::Driver),
            _ => None,
        }
    }
}

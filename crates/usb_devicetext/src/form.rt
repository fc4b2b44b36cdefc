//! The forms of lines: what stands behind each first word.

ghost use Rattle.std.specs.Prelude.{◌≡◌};
ghost use Rattle.usb_scripttext.specs.Words.{words_of};
ghost use Rattle.usb_devicetext.specs.Form.{answer_in, form, form_text, has_count, of_endpoint, of_request, stays_at, wanted_at, word_at};

use crate::topic::Topic;
use crate::wanted::Wanted;
use crate::word::any_byte;
use usb_model::EpAddr;
use usb_scripttext::number::address;

const DEVICE: &[Wanted] = &[Wanted::Device, Wanted::Bytes];

const SCRIPT: &[Wanted] = &[Wanted::Device, Wanted::Address];

const IDS: &[Wanted] = &[Wanted::Device, Wanted::Word, Wanted::Word, Wanted::Word];

const CLASS: &[Wanted] = &[Wanted::Device, Wanted::Byte, Wanted::Byte, Wanted::Byte];

const DESCRIPTOR: &[Wanted] = &[Wanted::Device, Wanted::Whole];

const TEXT: &[Wanted] = &[Wanted::Device, Wanted::Index];

const SPEED: &[Wanted] = &[Wanted::Device, Wanted::Speed];

const CONTROL: &[Wanted] = &[
    Wanted::Device,
    Wanted::AnyByte,
    Wanted::AnyByte,
    Wanted::AnyWord,
    Wanted::AnyWord,
];

const AFTER: &[Wanted] = &[
    Wanted::Device,
    Wanted::Address,
    Wanted::Number,
    Wanted::Address,
    Wanted::Number,
];

const AFTER_REQUESTS: &[Wanted] = &[
    Wanted::Device,
    Wanted::Address,
    Wanted::Number,
    Wanted::AnyByte,
    Wanted::AnyByte,
    Wanted::AnyWord,
    Wanted::AnyWord,
    Wanted::Number,
];

const LEAVES: &[Wanted] = &[Wanted::Device, Wanted::Address, Wanted::Number];

const BARE: &[Wanted] = &[Wanted::Device];

const DRIVER: &[Wanted] = &[Wanted::Device, Wanted::Interface];

/// The word at a place, the first at 0; an empty one past the last.
pub(crate) fn word_at<'a>(words: &[&'a str], at: usize) -> &'a str
    ensures { result.now ≡ word_at (words_of words.now) at }
{
    match words.get(at) {
        Some(word) => word,
        None => "",
    }
}

/// The answers of an endpoint.
fn of_endpoint(ep: EpAddr) -> Wanted
    ensures { result ≡ of_endpoint ep }
{
    if ep.is_in() {
        Wanted::InAnswer
    } else {
        Wanted::OutAnswer
    }
}

/// The answers to requests of a type.
fn of_request(kind: Option<u8>) -> Wanted
    ensures { result ≡ of_request kind }
{
    match kind {
        None => Wanted::PlainAnswer,
        Some(kind) if kind >= 128 => Wanted::ReadAnswer,
        Some(_) => Wanted::WriteAnswer,
    }
}

/// Whether the word at a place says that the answer before it stays: `..`, the last word, behind an answer. The form has so many places
/// behind the first word.
fn stays_at(places: usize, words: &[&str], at: usize) -> bool
    ensures { result ≡ stays_at places (words_of words.now) at }
{
    at.saturating_sub(places) > 1
        && at == words.len().saturating_sub(1)
        && word_at(words, at) == ".."
}

impl Topic {
    /// What stands behind the first word, as far as each place has its own, in a line of so many words.
    #[tactic(auto, unfolding(crate::specs::Form::form))]
    fn form(self, count: usize) -> &'static [Wanted]
        ensures { result.now ≡ form self count }
    {
        match self {
            Topic::Device => DEVICE,
            Topic::Script => SCRIPT,
            Topic::Ids => IDS,
            Topic::Class => CLASS,
            Topic::Descriptor => DESCRIPTOR,
            Topic::Text => TEXT,
            Topic::Speed => SPEED,
            Topic::Control => CONTROL,
            Topic::After if count == 9 => AFTER_REQUESTS,
            Topic::After => AFTER,
            Topic::Leaves => LEAVES,
            Topic::Hidden | Topic::Anew | Topic::Lasts => BARE,
            Topic::Driver => DRIVER,
        }
    }

    /// Whether a line of this first word may have so many words, the first among them.
    #[tactic(auto, unfolding(crate::specs::Form::has_count))]
    pub(crate) fn has_count(self, count: usize) -> bool
        ensures { result ≡ has_count self count }
    {
        match self {
            Topic::Hidden | Topic::Anew | Topic::Lasts => count == 2,
            Topic::Device | Topic::Descriptor | Topic::Speed | Topic::Driver => count == 3,
            Topic::Leaves => count == 4,
            Topic::Ids => count == 4 || count == 5,
            Topic::Class => count == 5,
            Topic::After => count == 6 || count == 9,
            Topic::Script => count >= 3,
            Topic::Text => count >= 4,
            Topic::Control => count >= 6,
        }
    }

    /// What each word behind those of the form is, in a line that has answers.
    #[tactic(auto, unfolding(crate::specs::Form::answer_in))]
    fn answer_in(self, words: &[&str]) -> Option<Wanted>
        ensures { result ≡ answer_in self (words_of words.now) }
    {
        match self {
            Topic::Script => match address(word_at(words, 2)) {
                Ok(ep) => Some(of_endpoint(ep)),
                Err(_) => None,
            },
            Topic::Control => match any_byte(word_at(words, 2)) {
                Ok(kind) => Some(of_request(kind)),
                Err(_) => None,
            },
            _ => None,
        }
    }

    /// What the word at a place has to be.
    pub(crate) fn wanted_at(self, words: &[&str], at: usize) -> Option<Wanted>
        ensures { result ≡ wanted_at self (words_of words.now) at }
    {
        let form = self.form(words.len());
        if at == 0 {
            return None;
        }
        if at > form.len() {
            return if stays_at(form.len(), words, at) {
                None
            } else {
                self.answer_in(words)
            };
        }
        match form.get(at - 1) {
            Some(wanted) => Some(*wanted),
            None => None,
        }
    }

    /// The form, as a person reads it.
    #[tactic(auto, unfolding(crate::specs::Form::form_text))]
    pub fn spelled(self) -> &'static str
        ensures { result.now ≡ form_text self }
    {
        match self {
            Topic::Device => "device D HEX",
            Topic::Script => "script D EP A A ..",
            Topic::Ids => "ids D VENDOR PRODUCT [RELEASE]",
            Topic::Class => "class D CLASS SUBCLASS PROTOCOL",
            Topic::Descriptor => "descriptor D HEX",
            Topic::Text => "string D I TEXT",
            Topic::Speed => "speed D SPEED",
            Topic::Control => "control D TYPE REQUEST VALUE INDEX A A ..",
            Topic::After => "after D EP K OTHER N` or `after D EP K TYPE REQUEST VALUE INDEX N",
            Topic::Leaves => "leaves D EP N",
            Topic::Hidden => "hidden D",
            Topic::Anew => "anew D",
            Topic::Lasts => "lasts D",
            Topic::Driver => "driver D I",
        }
    }
}

// The words that say a record, and the numbers behind each: where they stand in the record behind its header.

// What a line is about.
#[derive(Clone, Copy, PartialEq, Eq)]
pub(crate) enum Verb {
    // what the record before must print
    Expected,
    // bytes as they stand in the record
    Raw,
    Insert,
    Eject,
    Command,
    Feed,
    Pull,
    // a command by its name: its code
    Named(u8),
}

// How a number is written in the text, and how it stands in the record.
#[derive(Clone, Copy, PartialEq, Eq)]
pub(crate) enum Form {
    // decimal, in so many bytes
    One,
    Two,
    Four,
    // decimal, in two bytes, the low one first
    LittleEndian,
    // two hexadecimal digits
    Hex,
    // a word, and a 1 in the record
    Protected,
}

// A number behind a name.
#[derive(Clone, Copy, PartialEq, Eq)]
pub(crate) struct Field {
    pub(crate) at: usize,
    pub(crate) form: Form,
}

// The names of the commands, with their codes.
const COMMANDS: [(&[u8], u8); 17] = [
    (b"test-unit-ready", 0x00),
    (b"rezero-unit", 0x01),
    (b"request-sense", 0x03),
    (b"format-unit", 0x04),
    (b"inquiry", 0x12),
    (b"start-stop-unit", 0x1b),
    (b"prevent-removal", 0x1e),
    (b"read-format-capacities", 0x23),
    (b"read-capacity", 0x25),
    (b"read", 0x28),
    (b"write", 0x2a),
    (b"seek", 0x2b),
    (b"write-and-verify", 0x2e),
    (b"verify", 0x2f),
    (b"mode-sense", 0x5a),
    (b"read-12", 0xa8),
    (b"write-12", 0xaa),
];

impl Verb {
    pub(crate) fn of(word: &[u8]) -> Option<Verb> {
        match word {
            b"insert" => Some(Verb::Insert),
            b"eject" => Some(Verb::Eject),
            b"command" => Some(Verb::Command),
            b"feed" => Some(Verb::Feed),
            b"pull" => Some(Verb::Pull),
            b"record" => Some(Verb::Raw),
            _ => {
                let (_, code) = COMMANDS.iter().find(|(name, _)| *name == word)?;
                Some(Verb::Named(*code))
            }
        }
    }

    // What the next word has to be, behind so many.
    pub(crate) fn field(self, words: usize) -> Option<Field> {
        let (at, form) = match (self, words) {
            (Verb::Insert, 0) => (0, Form::One),
            (Verb::Insert, 1) => (1, Form::Protected),
            (Verb::Pull, 0) => (0, Form::LittleEndian),
            // the codes and places are the text's own: what it means must not come from the code that it tests
            (Verb::Named(0x03 | 0x12), 0) => (4, Form::One),
            (Verb::Named(0x04), 0) => (1, Form::Hex),
            (Verb::Named(0x04), 1) => (2, Form::One),
            (Verb::Named(0x04), 2) => (7, Form::Two),
            (Verb::Named(0x1b | 0x1e), 0) => (4, Form::Hex),
            (Verb::Named(0x23), 0) => (7, Form::Two),
            (Verb::Named(0x28 | 0x2a | 0x2b | 0x2e | 0x2f | 0xa8 | 0xaa), 0) => (2, Form::Four),
            (Verb::Named(0x28 | 0x2a | 0x2e | 0x2f | 0x5a), 1) => (7, Form::Two),
            (Verb::Named(0x5a), 0) => (2, Form::Hex),
            (Verb::Named(0xa8 | 0xaa), 1) => (6, Form::Four),
            _ => return None,
        };
        Some(Field { at, form })
    }
}

// The entries of the drive, called: the caller's buffer is a command's packet, a feed's piece, or what a pull fills.
use crate::say;
use drive::{Moved, Obeyed, Refusal};
use shell::Voice;
use state::{Media, State};

#[derive(Clone, Copy)]
pub(crate) enum Entry {
    Command,
    Feed,
    Pull,
    Insert(Media),
    Eject,
}

const EACH: [Entry; 5] = [
    Entry::Command,
    Entry::Feed,
    Entry::Pull,
    Entry::Insert(Media {
        disc: 4,
        protected: false,
    }),
    Entry::Eject,
];

// One entry, or the five one after the other; no Option or slice says that the line of one call tells more than that of the five.
#[derive(Clone, Copy)]
pub(crate) enum Calls {
    One(Entry),
    Each,
}

// What any of them answers: only a command passes, and only a feed and a pull move bytes.
#[derive(Clone, Copy)]
struct Answer {
    passed: bool,
    count: usize,
    state: State,
}

impl From<State> for Answer {
    fn from(state: State) -> Answer {
        Answer {
            passed: false,
            count: 0,
            state,
        }
    }
}

impl From<Obeyed> for Answer {
    fn from(obeyed: Obeyed) -> Answer {
        Answer {
            passed: obeyed.passed,
            ..Answer::from(obeyed.state)
        }
    }
}

impl From<Moved> for Answer {
    fn from(moved: Moved) -> Answer {
        Answer {
            count: moved.count,
            ..Answer::from(moved.state)
        }
    }
}

// What the entries are lent.
#[derive(Drop)]
pub(crate) struct Lent<'a> {
    pub(crate) caller: &'a mut [u8],
    pub(crate) buffer: &'a mut [u8],
    pub(crate) disc: &'a mut [u8],
}

impl Lent<'_> {
    fn entered(&mut self, entry: Entry, state: State) -> Result<Answer, Refusal> {
        // reborrowed one by one, since the check has no proof where a field is read while another is lent
        let caller = &mut *self.caller;
        let buffer = &mut *self.buffer;
        let disc = &mut *self.disc;
        Ok(match entry {
            Entry::Command => drive::command(state, caller, buffer, disc)?.into(),
            Entry::Feed => drive::feed(state, caller, buffer, disc)?.into(),
            Entry::Pull => drive::pull(state, caller, buffer, disc)?.into(),
            Entry::Insert(media) => drive::insert(state, media.disc, media.protected, disc)?.into(),
            Entry::Eject => drive::eject(state)?.into(),
        })
    }

    // One call: its house number, the triple, the count, and whether it passed. A refusal leaves the state.
    fn one(&mut self, voice: &mut Voice, entry: Entry, state: State) -> State {
        let reply = self.entered(entry, state);
        let answer = reply.unwrap_or(Answer::from(state));
        say::house(voice, drive::number_of(&reply));
        say::sense(voice, answer.state.host.sense);
        say::count(voice, answer.count);
        say::flag(voice, answer.passed, b" passed");
        answer.state
    }

    // The five: the house number of each, and the triple after them.
    fn each(&mut self, voice: &mut Voice, state: State) -> State {
        let mut after = state;
        for entry in EACH {
            let reply = self.entered(entry, after);
            say::house(voice, drive::number_of(&reply));
            after = reply.map_or(after, |answer| answer.state);
        }
        say::sense(voice, after.host.sense);
        after
    }

    // The answer is the state after the calls.
    pub(crate) fn called(&mut self, voice: &mut Voice, calls: Calls, state: State) -> State {
        match calls {
            Calls::One(entry) => self.one(voice, entry, state),
            Calls::Each => self.each(voice, state),
        }
    }
}

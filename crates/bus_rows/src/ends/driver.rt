//! A host that keeps to what it declares.

use crate::ends::access::Access;
use crate::ends::ends::Host;
use crate::ends::row::HostWork;
use crate::ends::rules::Rule;
use crate::ends::signals::{Answer, Command};

/// The host, as a cycle begins.
#[derive(Clone, Copy)]
pub struct Driver {
    /// How many accesses are accepted.
    accepted: usize,
    /// For how many cycles of its gap the next one has waited.
    waited: u32,
    /// How many reads are accepted, and how many of these have all their words.
    asked: usize,
    answered: usize,
    /// How many words the next one has.
    got: u16,
    /// The words that are asked and haven't come.
    unanswered: u32,
}

/// Where an access isn't shown its other levels stand there.
fn command_of(host: &Host, access: &Access, shown: bool) -> Command {
    let holds = access.begins || !host.loose;
    Command {
        read: shown && !access.writes,
        write: shown && access.writes,
        address: if holds { u128::from(access.address) } else { 0 },
        word: access.word,
        lanes: access.lanes,
        count: if holds { u128::from(access.count) } else { 0 },
    }
}

/// How many words the read with a number asks for.
fn words_of(work: &HostWork, number: usize) -> u16 {
    let read = work
        .accesses
        .as_slice()
        .iter()
        .filter(|access| !access.writes)
        .nth(number);
    match read {
        Some(read) => read.count,
        None => 0,
    }
}

/// Whether the host is given a word.
fn gets_word(host: &Host, shown: &Command, answer: &Answer) -> bool {
    if host.valid {
        answer.valid
    } else {
        shown.read && !answer.wait
    }
}

impl Driver {
    /// The host before the first cycle.
    pub fn new() -> Driver {
        Driver {
            accepted: 0,
            waited: 0,
            asked: 0,
            answered: 0,
            got: 0,
            unanswered: 0,
        }
    }

    /// What the host shows.
    pub fn shows(&self, work: &HostWork) -> Command {
        match work.accesses.get(self.accepted) {
            Some(access) => command_of(&work.host, access, self.waited >= access.gap),
            None => Command {
                read: false,
                write: false,
                address: 0,
                word: 0,
                lanes: 0,
                count: 0,
            },
        }
    }

    /// A read of so many words is accepted.
    fn asks(&mut self, words: u128) {
        let words = u32::try_from(words).unwrap_or(0);
        self.unanswered = self.unanswered.saturating_add(words);
        self.asked = self.asked.saturating_add(1);
    }

    /// A word comes; says whether it was asked for.
    fn gets(&mut self, work: &HostWork) -> bool {
        if self.unanswered == 0 {
            return false;
        }
        self.unanswered = self.unanswered.saturating_sub(1);
        self.got = self.got.saturating_add(1);
        if self.got >= words_of(work, self.answered) {
            self.answered = self.answered.saturating_add(1);
            self.got = 0;
        }
        true
    }

    /// The cycle ends; gives the word that the host is given, with its code.
    pub fn sees(&mut self, host: &Host, shown: &Command, answer: &Answer) -> Option<(u128, u128)> {
        if shown.is_shown() && !answer.wait {
            self.accepted = self.accepted.saturating_add(1);
            self.waited = 0;
        } else if !shown.is_shown() {
            self.waited = self.waited.saturating_add(1);
        }
        if gets_word(host, shown, answer) {
            Some((answer.word, answer.code))
        } else {
            None
        }
    }

    /// The rule on reads that is broken in this cycle at the host, which has this number.
    fn judges_reads(
        &mut self,
        work: &HostWork,
        host: u32,
        shown: &Command,
        answer: &Answer,
    ) -> Option<Rule> {
        if !work.host.valid {
            return None;
        }
        let unasked = answer.valid && !self.gets(work);
        if shown.read && !answer.wait {
            self.asks(shown.count);
        }
        if unasked {
            Some(Rule::Unasked { host })
        } else if self.asked.saturating_sub(self.answered) > 16 {
            Some(Rule::HostBound { host })
        } else {
            None
        }
    }

    /// The rule that is broken in this cycle at the host, which has this number.
    pub fn judges(
        &mut self,
        work: &HostWork,
        host: u32,
        shown: &Command,
        answer: &Answer,
    ) -> Option<Rule> {
        let broken = self.judges_reads(work, host, shown, answer);
        if answer.code != 0 && !gets_word(&work.host, shown, answer) {
            broken.or(Some(Rule::Quiet { host }))
        } else {
            broken
        }
    }

    /// How many accesses aren't accepted.
    pub fn left(&self, work: &HostWork) -> usize {
        work.accesses.len().saturating_sub(self.accepted)
    }

    /// For how many words the host waits.
    pub fn unanswered(&self) -> u32 {
        self.unanswered
    }
}

//! The nets of a command, and those of an answer.

ghost use Rattle.std.specs.Prelude.{◌≡◌};
ghost use Rattle.command_nets.specs.Nets.{group_of};

use netlist::Net;

/// The nets of one beat of a command. What no end has a port for stands here with its value all the same: byte enables are
/// all ones then, and the count is 1.
#[derive(Clone, Copy)]
pub struct CommandNets {
    /// One bit.
    pub read: Net,
    /// One bit.
    pub write: Net,
    /// In bytes.
    pub address: Net,
    pub word: Net,
    /// The byte enables, a bit for each byte of the word.
    pub enables: Net,
    /// The beats of the burst that begins.
    pub count: Net,
    /// One bit: another beat of the same command follows.
    pub more: Net,
    /// The host's number.
    pub tag: Net,
}

/// The nets of a word that answers a read.
#[derive(Clone, Copy)]
pub struct AnswerNets {
    /// One bit.
    pub valid: Net,
    pub word: Net,
    /// The response, two bits.
    pub code: Net,
}

impl CommandNets {
    /// The same nets.
    pub fn copied(&self) -> CommandNets
        ensures { result ≡ self.now }
    {
        CommandNets {
            read: self.read,
            write: self.write,
            address: self.address,
            word: self.word,
            enables: self.enables,
            count: self.count,
            more: self.more,
            tag: self.tag,
        }
    }

    /// The nets as a group, in the order of the fields.
    pub fn group(&self) -> [Net; 8]
        ensures { result ≡ group_of self.now }
    {
        [
            self.read,
            self.write,
            self.address,
            self.word,
            self.enables,
            self.count,
            self.more,
            self.tag,
        ]
    }

    /// The command on the nets of a group.
    pub fn of_group(group: [Net; 8]) -> CommandNets
        ensures { group_of result ≡ group }
    {
        let [read, write, address, word, enables, count, more, tag] = group;
        CommandNets {
            read,
            write,
            address,
            word,
            enables,
            count,
            more,
            tag,
        }
    }
}

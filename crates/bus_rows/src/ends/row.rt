//! The rows: hosts, agents, and what the hosts do.

use crate::ends::access::{Access, push_accesses};
use crate::ends::ends::{Agent, Host};
use row_words::{parted, small_number};
use std::alloc::{AllocError, Global};

/// A host, and what it does.
#[derive(Drop)]
pub struct HostWork {
    pub host: Host,
    /// The host shows each as soon as the one before is accepted and its gap is over.
    pub accesses: Vec<Access>,
}

/// A host joined to an agent, by their numbers.
#[derive(Clone, Copy)]
pub struct Connection {
    pub host: u8,
    pub agent: usize,
    pub shares: u8,
}

/// Hosts and agents.
#[derive(Drop)]
pub struct Row {
    /// By their numbers.
    pub hosts: Vec<HostWork>,
    pub agents: Vec<Agent>,
    /// Those of agent after agent.
    pub connections: Vec<Connection>,
    /// The pipeline stages.
    pub stages: u8,
    pub cycles: u32,
}

/// A row of which not all words are read.
#[derive(Drop)]
struct RowDraft {
    row: Row,
    /// The host whose accesses come next, and what it does so far.
    work: HostWork,
    has_cycles: bool,
    /// The gap before the next access.
    gap: u32,
}

impl Connection {
    /// The connection of a word, as `0*3` of host 0 with 3 shares.
    fn read(word: &str, agent: usize) -> Option<Connection> {
        let (host, shares) = parted(word, '*', "1");
        Some(Connection {
            host: small_number(host)?,
            agent,
            shares: small_number(shares)?,
        })
    }
}

/// What stands behind `from=` in an agent's word, host 0 where nothing does.
fn joined_hosts<'a>(word: &'a str) -> &'a str {
    match word.split_once(",from=") {
        Some((_, rest)) => parted(rest, ',', "").0,
        None => "0",
    }
}

impl Row {
    fn new(alloc: Global) -> Row {
        Row {
            hosts: Vec::new(alloc),
            agents: Vec::new(alloc),
            connections: Vec::new(alloc),
            stages: 0,
            cycles: 0,
        }
    }

    /// Appends the connections of the next agent; false where one isn't written as it should be.
    fn add_connections(&mut self, word: &str) -> Result<bool, AllocError> {
        let agent = self.agents.len();
        for part in joined_hosts(word).split('+') {
            match Connection::read(part, agent) {
                Some(connection) => self.connections.push(connection)?,
                None => return Ok(false),
            }
        }
        Ok(true)
    }

    /// Appends an agent; false where the word tells none.
    fn add_agent(&mut self, word: &str) -> Result<bool, AllocError> {
        let Some(agent) = Agent::read(word) else {
            return Ok(false);
        };
        let joined = self.add_connections(word)?;
        self.agents.push(agent)?;
        Ok(joined)
    }
}

impl RowDraft {
    fn new(alloc: Global, host: Host) -> RowDraft {
        RowDraft {
            row: Row::new(alloc),
            work: HostWork {
                host,
                accesses: Vec::new(alloc),
            },
            has_cycles: false,
            gap: 0,
        }
    }

    /// Reads the stages, as `stages=2`, the number of cycles, or an agent; false where the word is none of them.
    fn add_end(&mut self, word: &str) -> Result<bool, AllocError> {
        if let Some(stages) = word.strip_prefix("stages=") {
            self.row.stages = small_number(stages).unwrap_or(0);
            return Ok(true);
        }
        if let Ok(cycles) = word.parse() {
            self.row.cycles = cycles;
            self.has_cycles = true;
            return Ok(true);
        }
        self.row.add_agent(word)
    }

    /// The next host begins; false where the word tells none.
    fn add_host(&mut self, alloc: Global, word: &str) -> Result<bool, AllocError> {
        let Some(host) = Host::read(word) else {
            return Ok(false);
        };
        let next = HostWork {
            host,
            accesses: Vec::new(alloc),
        };
        let work = std::mem::replace(&mut self.work, next);
        self.row.hosts.push(work)?;
        self.gap = 0;
        Ok(true)
    }

    /// Reads a gap, as `+5`, or accesses; false where the word is neither.
    fn add_access(&mut self, word: &str) -> Result<bool, AllocError> {
        if let Some(cycles) = word.strip_prefix("+") {
            self.gap = self.gap.saturating_add(cycles.parse().unwrap_or(0));
            return Ok(true);
        }
        let gap = self.gap;
        self.gap = 0;
        push_accesses(&mut self.work.accesses, &self.work.host.shape, gap, word)
    }

    fn add(&mut self, alloc: Global, word: &str) -> Result<bool, AllocError> {
        if !self.has_cycles {
            self.add_end(word)
        } else if word.contains(',') {
            self.add_host(alloc, word)
        } else {
            self.add_access(word)
        }
    }

    /// The row, once all words are read.
    fn finish(self) -> Result<Row, AllocError> {
        let RowDraft { mut row, work, .. } = self;
        row.hosts.push(work)?;
        Ok(row)
    }
}

impl Row {
    /// The row on a line: a host, the agents, the cycles, what the host does, and so each further host.
    pub fn read(alloc: Global, line: &str) -> Result<Option<Row>, AllocError> {
        let mut words = line.split_whitespace();
        let Some(first) = words.next() else {
            return Ok(None);
        };
        let Some(host) = Host::read(first) else {
            return Ok(None);
        };
        let mut draft = RowDraft::new(alloc, host);
        for word in words {
            if !draft.add(alloc, word)? {
                return Ok(None);
            }
        }
        Ok(Some(draft.finish()?))
    }
}

//! Replies that note what a host does in a simulation.

use av_base::Val;
use packet_bytes::Replies;
use simulations::HostNotes;

/// Replies, as they note each cycle of a run.
#[derive(Drop)]
pub(crate) struct NotingReplies {
    pub(crate) replies: Replies,
}

impl HostNotes for NotingReplies {
    ghost use Rattle.scenario_runs.specs.Noting.{HasNotedSince};

    ghost notes = { HasNotedSince };

    fn note(&mut self, write_taken: bool, word: Option<Val>) {
        self.replies.note(write_taken, word);
    }
}

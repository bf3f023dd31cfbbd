//! Small runs of the parts that are straight and prompt, and wrong ones that aren't, computed.

ghost use Rattle.std.specs.Prelude.{◌&&◌, ◌∷◌, [], IsTrue, false, not, true};
ghost use Rattle.memory_machines.specs.Straight.{HostGoesStraightThrough, HostIsPrompt, RouteGoesStraightThrough, RouteIsPrompt, ShowsWhatItIsAsked};
ghost use Rattle.memory_machines.specs.Straight.{are_answered, earlier_shown, has_room_at_agent, host_may_go_on, route_may_go_on, shows_plain};
ghost use Rattle.memory_waits.specs.Examples.{above_host, at_host, below_host, host_with, late, write_ahead, write_behind, writing};
ghost use Rattle.memory_waits.specs.Examples.{above_route, below_route, even_pair, last_lane, odd_pair, routed_ahead};
ghost use Rattle.memory_waits.specs.Examples.{above_agent, agent_run, asked_twice, at_agent, commands_of, idle, port_with};
ghost use Rattle.memory_runs.specs.Commands.{shows};

/// A write goes straight on while the word of a read before it is owed, and without readdatavalid once that word has come.
pub fn straight_hosts()
    ensures ahead { HostGoesStraightThrough (host_with true 4) (at_host (host_with true 4) write_ahead) 0
        (below_host (host_with true 4) write_ahead) 3 }
    ensures prompt { HostIsPrompt 0 (host_with true 4) (at_host (host_with true 4) write_ahead) 0
        (below_host (host_with true 4) write_ahead) 3 }
    ensures asked { let up = above_host (host_with true 4) write_ahead in
        IsTrue (shows_plain up 1 && host_may_go_on up (below_host (host_with true 4) write_ahead) 1 && not (are_answered up (earlier_shown up 1) 1)) }
    ensures behind { HostGoesStraightThrough (host_with false 4) (at_host (host_with false 4) write_behind) 0
        (below_host (host_with false 4) write_behind) 4 }
    ensures prompt_behind { HostIsPrompt 0 (host_with false 4) (at_host (host_with false 4) write_behind) 0
        (below_host (host_with false 4) write_behind) 4 }
    ensures asked_behind { let up = above_host (host_with false 4) write_behind in
        IsTrue (shows_plain up 3 && host_may_go_on up (below_host (host_with false 4) write_behind) 3 && are_answered up (earlier_shown up 3) 3) }
{
    crate::straight::hosts::host_goes_straight();
    crate::straight::hosts::host_is_prompt();
    memory_parts::runs::host_machine_runs()
}

/// A write goes straight on to the agent that owes a word. Where words don't fit, one on the last lane comes to nothing there, so
/// nothing of it is shown promptly.
pub fn straight_routes()
    ensures ahead { RouteGoesStraightThrough even_pair 0 0 (above_route even_pair routed_ahead)
        (below_route even_pair routed_ahead) 3 }
    ensures prompt { RouteIsPrompt 0 even_pair 0 0 (above_route even_pair routed_ahead) (below_route even_pair routed_ahead) 3 }
    ensures asked { let up = above_route even_pair routed_ahead in
        IsTrue (route_may_go_on even_pair 0 0 up (below_route even_pair routed_ahead) 1 && not (are_answered up (earlier_shown up 1) 1)) }
    ensures odd { RouteIsPrompt 3 odd_pair 0 0 (above_route odd_pair last_lane) (below_route odd_pair last_lane) 4 → ⊥ }
{
    crate::straight::routes::route_goes_straight();
    crate::straight::routes::route_is_prompt();
    memory_parts::runs::route_machine_runs()
}

/// A read is shown to an agent that bears one more, and a write to one that bears none.
pub fn agents_shown_at_once()
    ensures shows { ShowsWhatItIsAsked even_pair (agent_run (at_agent asked_twice)) 0 (above_agent asked_twice) 3 }
    ensures read { IsTrue
        (shows (above_agent asked_twice).commands.signals 0
        && has_room_at_agent even_pair (agent_run (at_agent asked_twice)) 0 0) }
    ensures write { IsTrue
        (shows (above_agent asked_twice).commands.signals 1
        && not (has_room_at_agent even_pair (agent_run (at_agent asked_twice)) 0 1)) }
{
    crate::straight::agents::agent_shows_what_it_is_asked();
    memory_parts::runs::agent_machine_runs()
}

/// A write that is shown one cycle late, or never, is neither straight nor prompt.
pub fn late_parts()
    ensures host { HostGoesStraightThrough (host_with true 4) writing 0 late 1 → ⊥ }
    ensures prompt_host { HostIsPrompt 0 (host_with true 4) writing 0 late 1 → ⊥ }
    ensures route { RouteGoesStraightThrough even_pair 0 0 (port_with (commands_of [] (1 ∷ []) 15)) (λ a. late) 1 → ⊥ }
    ensures prompt_route { RouteIsPrompt 0 even_pair 0 0 (port_with (commands_of [] (1 ∷ []) 15)) (λ a. late) 1 → ⊥ }
    ensures agent { ShowsWhatItIsAsked even_pair (agent_run idle) 0 (above_agent asked_twice) 1 → ⊥ }
{}

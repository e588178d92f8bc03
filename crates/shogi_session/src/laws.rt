//! The laws of the machines: those of the host, the sample engine and a bridge's table, and one of
//! a bridge together with a host. The functions take and give nothing; each law is a clause.

ghost use Rattle.std.specs.Prelude.{◌≡◌, ◌++◌, ℕ, List, [], filter};
ghost use Rattle.std.specs.List.{AllByRecursion};
ghost use Rattle.csa_cutting.specs.Lines.{Lines};
ghost use Rattle.bridge_table.specs.declared.config.Config.{Config};
ghost use Rattle.host_and_sample.specs.declared.config.HostConfig.{HostConfig};
ghost use Rattle.host_and_sample.specs.Host.{HostState};
ghost use Rattle.host_and_sample.specs.HostLogs.{HostLeads, HostStep, written, written_moves};
ghost use Rattle.bridge_table.specs.Events.{Event, Out};
ghost use Rattle.bridge_table.specs.Logs.{Leads, Step, Taken, server_lines};
ghost use Rattle.session_lines.specs.MoveLines.{is_move_line};
ghost use Rattle.bridge_table.specs.Row.{Row};
ghost use Rattle.bridge_table.specs.Sending.{IsPrefix};
ghost use Rattle.bridge_table.specs.State.{State};
ghost use Rattle.session_lines.specs.Texts.{text_of, without_last_spaces};
ghost use Rattle.shogi_session.specs.Configs.{IsConfig};

pub use bridge_table::laws::{
    asked_right, asking_has_a_position, confirmed_once, ends_are_silent, game_so_far,
    log_instanced, moves_instanced, password_is_in_the_login_alone, row_once, sent_legal,
    sent_once, silent_when_over, step_whole, summary_line_once, thinking_may_ask,
};
pub use host_and_sample::laws::{
    host_game, host_lines_whole, host_row_once, host_step_whole, host_waits_for_its_client,
    sample_row_once, sample_step_whole,
};

/// Let the lines that a bridge received from its server, without the spaces at their end, be the
/// first of those that a host sent; other events may come between. Then the bridge's lines of play
/// that begin with `+` or `-` are the first of those that the host sent after `START:`.
pub fn both_ends()
    ensures ends { (c : Config) (log : List Step)
        (s : State) (host : HostConfig) (wrote : List HostStep) (t : HostState)
        → Leads c log s → HostLeads host wrote t → IsPrefix (server_lines log) (written wrote)
        → (taken rest : List (List ℕ))
        → Taken log taken rest → IsPrefix (filter is_move_line taken) (written_moves wrote) }
{}

/// The bytes that a step of a bridge sends its engine, and those that it sends its server, are cut
/// back into exactly the lines that it sends. No line has a space at its end.
pub fn bridge_lines_whole()
    ensures engine { (c : Config) (s t : State) (e : Event) (out : Out)
        → IsConfig c → Row c s e out t
        → Lines (text_of out.to_engine) out.to_engine [] }
    ensures server { (c : Config) (s t : State) (e : Event) (out : Out)
        → IsConfig c → Row c s e out t
        → Lines (text_of out.to_server) out.to_server [] }
    ensures unspaced { (c : Config) (s t : State) (e : Event) (out : Out)
        → IsConfig c → Row c s e out t
        → AllByRecursion (λ line. without_last_spaces line ≡ line)
        (out.to_engine ++ out.to_server) }
{}

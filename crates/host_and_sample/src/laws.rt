//! Laws of the definitions that the contracts of this crate cite. The functions take and give
//! nothing; each law is a clause.

ghost use Rattle.std.specs.Prelude.{◌≡◌, ℕ, List, []};
ghost use Rattle.std.specs.List.{AllByRecursion};
ghost use Rattle.csa_cutting.specs.Lines.{Lines};
ghost use Rattle.host_and_sample.specs.declared.config.HostConfig.{HostConfig};
ghost use Rattle.host_and_sample.specs.Host.{HostRow, HostState, IsHostConfig, playing};
ghost use Rattle.host_and_sample.specs.HostLogs.{HostLeads, HostStep, IsTimedGame, Timed, written, written_moves};
ghost use Rattle.host_and_sample.specs.Hosting.{HostSession, HostRowText, StepRow as HostStepRow};
ghost use Rattle.host_and_sample.specs.Sample.{SampleRowText, SampleState, SampleRow};
ghost use Rattle.session_lines.specs.Texts.{text_of, without_last_spaces};
ghost use Rattle.shogi_rules.specs.Positions.{Played, now_of};

/// For the sample engine, a state and a line have one answer and one next state.
pub fn sample_row_once()
    ensures once { (s t u : SampleState) (line : List ℕ) (lines others : List (List ℕ))
        → SampleRow s line lines t → SampleRow s line others u → (lines ≡ others) × (t ≡ u) }
{}

/// For a host, a state and a line have one answer and one next state.
pub fn host_row_once()
    ensures once { (c : HostConfig)
        (s t u : HostState) (line : List ℕ) (seconds : ℕ) (lines others : List (List ℕ))
        → HostRow c s line seconds lines t
        → HostRow c s line seconds others u → (lines ≡ others) × (t ≡ u) }
{}

/// Two clauses of `Sample::step` say together that its bytes are those of a row that fits: `row`,
/// by which a row of the table fits the step, and `lines`, by which the bytes are those of each row
/// that fits.
pub fn sample_step_whole()
    ensures whole { (s t : SampleState) (line text : List ℕ)
        → ((lines : List (List ℕ)) × SampleRow s line lines t)
        → ((lines : List (List ℕ)) → SampleRow s line lines t → text ≡ text_of lines)
        → SampleRowText s line text t }
{}

/// Two clauses of `Host::step` say together that its bytes are those of a row that fits: `row`, by
/// which a row of the table fits the step, and `to_client`, by which the bytes are those of each
/// row that fits.
pub fn host_step_whole()
    ensures whole { (old new : HostSession) (line : List ℕ) (seconds : ℕ) (text : List ℕ)
        → ((lines : List (List ℕ)) × HostStepRow old line seconds lines new)
        → ((lines : List (List ℕ)) → HostStepRow old line seconds lines new → text ≡ text_of lines)
        → HostRowText old.config old.state (without_last_spaces line) seconds text new.state }
{}

/// In every log of a host, the lines after `START:` that begin with `+` or `-` are the moves of a
/// game from the even start, in order and with their times. There are no more of them than the game
/// may have.
pub fn host_game()
    ensures game { (c : HostConfig) (log : List HostStep) (s : HostState)
        → IsHostConfig c → HostLeads c log s
        → (ms : List Timed) × IsTimedGame c.max_moves (written_moves log) ms }
{}

/// In every log of a host whose game is going on, the client is to move.
pub fn host_waits_for_its_client()
    ensures turn { (c : HostConfig) (log : List HostStep) (g : Played)
        → HostLeads c log (playing g) → (now_of g).side ≡ c.client }
{}

/// In every log of a host, the bytes that it sent are cut back into exactly its lines, and no line
/// has a space at its end.
pub fn host_lines_whole()
    ensures cut { (c : HostConfig) (log : List HostStep) (s : HostState)
        → IsHostConfig c → HostLeads c log s
        → Lines (text_of (written log)) (written log) [] }
    ensures unspaced { (c : HostConfig) (log : List HostStep) (s : HostState)
        → IsHostConfig c → HostLeads c log s
        → AllByRecursion (λ line. without_last_spaces line ≡ line) (written log) }
{}

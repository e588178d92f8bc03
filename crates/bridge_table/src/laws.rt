//! Laws of a bridge's table, over one step and over every log. The functions take and give nothing;
//! each law is a clause.

ghost use Rattle.std.specs.Prelude.{◌≡◌, ◌↔◌, ◌⊎◌, ◌++◌, ◌∷◌, [], ℕ, List, true, false, None, codes, map};
ghost use Rattle.std.specs.List.{AllByRecursion, list_any};
ghost use Rattle.record_game.specs.Game.{Game};
ghost use Rattle.record_game.specs.Items.{AtMostOne};
ghost use Rattle.bridge_table.specs.declared.config.Config.{Config};
ghost use Rattle.bridge_table.specs.declared.event.Status.{Status};
ghost use Rattle.bridge_table.specs.declared.event.Status.TheVariants.{Going};
ghost use Rattle.bridge_table.specs.declared.state.EngineState.TheVariants.{Thinking};
ghost use Rattle.bridge_table.specs.Asking.{AskLines, MayAsk};
ghost use Rattle.bridge_table.specs.declared.fault.MoveCause.TheVariants.{Refused, Unsent};
ghost use Rattle.bridge_table.specs.declared.fault.SessionFault.TheVariants.{BadServerMove};
ghost use Rattle.record_game.specs.declared.fault.Why.TheVariants.{Rule};
ghost use Rattle.shogi_board.specs.declared.rule.Rule.TheVariants.{WrongSide};
ghost use Rattle.shogi_board.specs.declared.square.Square.{Square};
ghost use Rattle.bridge_table.specs.Events.{Event, Out, engine_end, engine_line, no_lines, server, server_end, server_line};
ghost use Rattle.bridge_table.specs.Examples.{pawn_events, pawn_match, pawn_step, ready, thinking};
ghost use Rattle.bridge_table.specs.GameSoFar.{game_of};
ghost use Rattle.bridge_table.specs.Hearing.{content_after};
ghost use Rattle.session_lines.specs.LineTexts as texts;
ghost use Rattle.bridge_table.specs.Logs.{Confirmed, GameOf, Leads, Moved, Step, TellsGame, answers, counted, event_in, is_answer, is_sound, sends};
ghost use Rattle.bridge_table.specs.Passwords.{DifferInLogin, DifferInPassword};
ghost use Rattle.bridge_table.specs.Promises.{KeepsGame, Session, StepRow, Steps};
ghost use Rattle.bridge_table.specs.Row.{Row, failed};
ghost use Rattle.bridge_table.specs.Sending.{AskedRight, IsAnswered, OwnSent, is_position_line};
ghost use Rattle.bridge_table.specs.declared.state.Answer.TheVariants.{Move as move};
ghost use Rattle.bridge_table.specs.State.{Match, State, playing, sent, with_move};
ghost use Rattle.bridge_table.specs.Summary.{CountsAs, SummaryContent, Offer, no_content};
ghost use Rattle.session_lines.specs.Texts.{text_of};

/// A summary of no lines has no content. If some lines have the content `h`, then these and one
/// more line have the content `content_after h line`, and no other.
pub fn summary_line_once()
    ensures first { CountsAs [] no_content }
    ensures next { (lines : List (List ℕ)) (line : List ℕ) (h new : SummaryContent)
        → CountsAs lines h
        → (CountsAs (lines ++ line ∷ []) new ↔ (new ≡ content_after h line)) }
{}

/// A state and an event have one answer and one next state: no two rows of the table fit.
pub fn row_once()
    ensures once { (c : Config) (s t u : State) (e : Event) (out other : Out)
        → Row c s e out t → Row c s e other u → (out ≡ other) × (t ≡ u) }
{}

/// When a side ends, no line is sent.
pub fn ends_are_silent()
    ensures silent { (c : Config) (s t : State) (e : Event) (out : Out)
        → Row c s e out t → (e ≡ engine_end) ⊎ (e ≡ server_end) → out ≡ no_lines }
{}

/// The password is in the line of the login and in no other: from a state, by an event, a bridge
/// with another password sends the same lines, but for that one, and goes to the same state.
pub fn password_is_in_the_login_alone()
    ensures login { (c d : Config) (s t : State) (e : Event) (out : Out)
        → DifferInPassword c d → Row c s e out t
        → (other : Out) × Row d s e other t × DifferInLogin c d out other }
{}

/// A step is whole if it is a row, sends the bytes of that row's lines, has its status, and keeps
/// the configuration.
pub fn step_whole()
    ensures whole { (old new : Session) (e : Event) (to_engine to_server : List ℕ) (status : Status)
        → ((out : Out) × StepRow old e out new)
        → ((out : Out) → StepRow old e out new → to_engine ≡ text_of out.to_engine)
        → ((out : Out) → StepRow old e out new → to_server ≡ text_of out.to_server)
        → status ≡ new.state.status → new.config ≡ old.config
        → Steps old e to_engine to_server status new }
{}

/// A step that faults sends no line, and changes the status only. A step of a session that is over,
/// done or failed, sends no line and changes nothing. So in every log, once a step has ended the
/// session, no later step sends a line, and each has that step's status.
pub fn silent_when_over()
    ensures fault { (c : Config) (s t : State) (e : Event) (out : Out)
        → Row c s e out t → is_sound t.status ≡ false
        → (out ≡ no_lines) × (t ≡ record s { status = t.status }) }
    ensures over { (c : Config) (s t : State) (e : Event) (out : Out)
        → Row c s e out t → (s.status ≡ Going → ⊥)
        → (out ≡ no_lines) × (t ≡ s) }
    ensures ever { (c : Config) (before rest : List Step) (step : Step) (t : State)
        → Leads c (before ++ step ∷ rest) t
        → (step.status ≡ Going → ⊥)
        → AllByRecursion (λ later. (later.out ≡ no_lines) × (later.status ≡ step.status)) rest }
{}

/// In every log, an engine that thinks while the game is in play may be asked: the client is to
/// move, the position has not occurred four times, and there are fewer than 10,000 moves.
pub fn thinking_may_ask()
    ensures asked { (c : Config) (log : List Step) (s : State) (g : Match)
        → Leads c log s → s.engine ≡ Thinking
        → s.client ≡ playing g → MayAsk g }
{}

/// The lines of a log confirm one game at most.
pub fn confirmed_once()
    ensures once { (log : List Step) (o p : Offer) (ms ns : List Moved)
        → Confirmed log o ms → Confirmed log p ns → (o ≡ p) × (ms ≡ ns) }
{}

/// In every log, each line that a step sends the server as the engine's answer is `%TORYO`,
/// `%KACHI`, or the text of a legal move. The move is one of the client's side, in the game that
/// the log before it confirmed.
pub fn sent_legal()
    ensures legal { (c : Config) (log : List Step) (s t : State) (e : Event) (out : Out)
        → Leads c log s → Row c s e out t
        → AllByRecursion (λ line. is_answer line ≡ true → IsAnswered log line) out.to_server }
{}

/// In every log, a step that answers sends one answer, and the server had confirmed all answers
/// before it. From `AGREE` on, the answers are the confirmed moves of the client's side, in order,
/// and then at most one that waits for confirmation.
pub fn sent_once()
    ensures answers { (c : Config) (log : List Step) (s t : State) (e : Event) (out : Out)
        → Leads c log s → Row c s e out t
        → list_any is_answer out.to_server ≡ true → AtMostOne out.to_server × OwnSent log [] }
    ensures log { (c : Config) (log : List Step) (s : State) → Leads c log s
        → list_any (sends texts.agree) (counted log) ≡ true
        → (waiting : List (List ℕ)) × OwnSent log waiting }
{}

/// In every log, each `position` line that a step sends the engine is that of the game that the
/// log, with this step, has confirmed. The `go` line has that game's clocks.
pub fn asked_right()
    ensures right { (c : Config) (log : List Step) (s t : State) (e : Event) (out : Out)
        → Leads c log s → Row c s e out t
        → list_any is_position_line out.to_engine ≡ true
        → AskedRight c (log ++ (record { event = e; out = out; status = t.status })
        ∷ []) out.to_engine }
{}

/// The lines that ask an engine for a move include a `position` line. So `asked_right` speaks of
/// every step that asks.
pub fn asking_has_a_position()
    ensures position { (c : Config) (g : Match) (lines : List (List ℕ))
        → AskLines c g lines → list_any is_position_line lines ≡ true }
{}

/// In every log, the game that a bridge has played so far is the log's game. There is none exactly
/// until `AGREE` is sent. A log has at most one game, and it has no headers. A step that faults
/// does not change the log's game. If memory runs out in a step, the game that is kept is that of
/// the log before the event, or with it.
pub fn game_so_far()
    ensures log { (c : Config) (log : List Step) (s : State)
        → Leads c log s → TellsGame s.client log }
    ensures none { (c : Config) (log : List Step) (s : State) → Leads c log s
        → ((game_of s.client ≡ None) ↔ (list_any (sends texts.agree) (counted log) ≡ false)) }
    ensures once { (log : List Step) (g h : Game) → GameOf log g → GameOf log h → g ≡ h }
    ensures no_headers { (log : List Step) (g : Game) → GameOf log g → g.headers ≡ [] }
    ensures fault { (log : List Step) (step : Step) → is_sound step.status ≡ false
        → (g : Game) → GameOf (log ++ step ∷ []) g ↔ GameOf log g }
    ensures lost { (c : Config) (log : List Step) (s t : State) (e : Event)
        → Leads c log s → KeepsGame c s e t
        → TellsGame t.client log ⊎ ((out : Out) × (u : State) × Row c s e out u
        × TellsGame t.client (log ++ (record { event = e; out = out; status = u.status }) ∷ [])) }
{}

/// In a game that begins with only a black pawn on 77, with the client black: if the engine thinks,
/// `bestmove 7g7f` is answered with `+7776FU`. `+7776FU` is confirmed if it was sent, and is a
/// fault if nothing was sent. `-3334FU` breaks the first rule.
pub fn moves_instanced()
    ensures answered { (c : Config) (from to : Square)
        → from.file ≡ 7 → from.rank ≡ 7 → to.file ≡ 7 → to.rank ≡ 6
        → Row c (thinking (playing pawn_match))
        (engine_line (codes "bestmove 7g7f")) (server (codes "+7776FU"))
        (ready (sent pawn_match (move (pawn_step from to).move))) }
    ensures confirmed { (c : Config) (from to : Square)
        → from.file ≡ 7 → from.rank ≡ 7 → to.file ≡ 7 → to.rank ≡ 6
        → Row c (ready (sent pawn_match (move (pawn_step from to).move)))
        (server_line (codes "+7776FU")) no_lines
        (ready (playing (with_move pawn_match (pawn_step from to)))) }
    ensures unsent { (c : Config)
        → Row c (ready (playing pawn_match)) (server_line (codes "+7776FU")) no_lines
        (failed (ready (playing pawn_match)) (BadServerMove Unsent)) }
    ensures refused { (c : Config)
        → Row c (ready (playing pawn_match)) (server_line (codes "-3334FU")) no_lines
        (failed (ready (playing pawn_match)) (BadServerMove (Refused (Rule WrongSide)))) }
{}

/// There is a log with an answer: a bridge that is offered that game as black, asks its engine and
/// receives `bestmove 7g7f` has sent `+7776FU` and no other answer. There is also a log after which
/// a step sends the engine a `position` line.
pub fn log_instanced()
    ensures answered { (c : Config) (from to : Square)
        → from.file ≡ 7 → from.rank ≡ 7 → to.file ≡ 7 → to.rank ≡ 6
        → (log : List Step) × (map event_in log ≡ pawn_events)
        × (answers log ≡ codes "+7776FU" ∷ [])
        × Leads c log (ready (sent pawn_match (move (pawn_step from to).move))) }
    ensures asked { (c : Config) → (log : List Step)
        × (s : State) × (t : State) × (e : Event) × (out : Out)
        × Leads c log s × Row c s e out t × (list_any is_position_line out.to_engine ≡ true) }
{}

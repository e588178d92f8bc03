//! A call of each law by its name. A law takes nothing, returns nothing and needs no memory.

use crate::items::memory::{refuse_all, refuse_no_more};
use csa_cutting::laws as cutting;
use csa_record::laws as record;
use csa_text::laws as text;
use hash_comments::laws as hashes;
use shogi_board::laws as board;
use shogi_rules::laws as rules;
use shogi_session::laws as session;
use std::test::Fail;
use usi_text::laws as usi;

fn board_laws() {
    board::reach_turned();
    board::gold_reaches_six();
    board::horse_reaches();
    board::knight_without_move();
    board::even_is_sound();
    board::even_is_full();
    board::even_turned();
    board::equal_positions();
    board::equal_setups();
    board::ordered_positions();
    board::ordered_pieces();
    board::ordered_squares();
}

fn rules_laws() {
    rules::king_never_taken();
    rules::last_ranks();
    rules::legal_move_keeps_soundness();
    rules::game_keeps_soundness();
    rules::pieces_stay();
    rules::mover_not_in_check();
    rules::only_evasions_end_check();
    rules::other_side_moves();
    rules::one_first_broken_rule();
    rules::some_first_broken_rule();
    rules::one_answer();
    rules::some_answer();
    rules::ordered_rules();
    rules::one_first_legal();
    rules::times_counts_equal_positions();
    rules::nth_place_once();
    rules::one_verdict();
    rules::some_verdict();
    rules::now_stands_last();
    rules::fourth_stands_last();
}

fn cutting_laws() {
    cutting::cut_once();
    cutting::first_is_stated();
    cutting::lines_once();
    cutting::closed_once();
    cutting::too_long_once();
    cutting::step_whole();
    cutting::finish_whole();
    cutting::next_whole();
    cutting::pieces_run();
    cutting::cutter_run();
    cutting::never_both();
    cutting::statements_alike();
    cutting::line_step_whole();
    cutting::lines_run();
}

fn text_laws() {
    text::spelt_once();
    text::moment_once();
    text::equal_moments();
}

fn record_laws() {
    record::canon_equal();
    record::canon_tells();
    record::cuttings_alike();
    record::headers_anywhere();
    record::laid_out();
    record::moved_headers();
    record::one_game();
    record::one_refusal();
    record::refused_when_closed();
    record::told_once();
    record::union_placed();
    record::read_so_far();
}

fn usi_laws() {
    usi::sfen_once();
    usi::start_faults();
    usi::board_stands();
    usi::hands_held();
    usi::sfen_stands();
    usi::first_excess();
    usi::sfen_again();
    usi::line_once();
    usi::line_again();
    usi::one_move();
    usi::one_text();
    usi::one_line_text();
    usi::one_engine_word();
}

fn session_laws() {
    session::asked_right();
    session::asking_has_a_position();
    session::confirmed_once();
    session::ends_are_silent();
    session::game_so_far();
    session::log_instanced();
    session::moves_instanced();
    session::password_is_in_the_login_alone();
    session::row_once();
    session::sent_legal();
    session::sent_once();
    session::silent_when_over();
    session::step_whole();
    session::summary_line_once();
    session::thinking_may_ask();
    session::host_game();
    session::host_lines_whole();
    session::host_row_once();
    session::host_step_whole();
    session::host_waits_for_its_client();
    session::sample_row_once();
    session::sample_step_whole();
    session::both_ends();
    session::bridge_lines_whole();
}

#[test]
fn needs_no_memory(rt: HostRuntime) -> Result<(), Fail> {
    refuse_all(&rt);
    board_laws();
    rules_laws();
    cutting_laws();
    text_laws();
    hashes::read_by_places();
    record_laws();
    usi_laws();
    session_laws();
    refuse_no_more(&rt)
}

use csa_text::{
    Ending, even_head, pieces_head, rank_head, write_ending, write_header, write_name, write_time,
    write_turn, write_version,
};
use shogi_board::{Color, OutOfMemory};

fn write_titles(out: &mut Vec<u8>) -> Result<(), OutOfMemory> {
    write_version(out)?;
    write_name(out, Color::White, b"a, b")?;
    write_header(out, b"EVENT", b"c")?;
    Ok(())
}

#[test]
fn writes_titles(rt: HostRuntime) -> Result<(), OutOfMemory> {
    let mut out = Vec::new(rt.alloc());
    write_titles(&mut out)?;
    assert!(rt; out.as_slice() == b"V2.2N-a, b$EVENT:c".as_slice());
    Ok(())
}

#[test]
fn writes_the_turn_and_the_ending(rt: HostRuntime) -> Result<(), OutOfMemory> {
    let mut out = Vec::new(rt.alloc());
    write_turn(&mut out, Color::White)?;
    write_ending(&mut out, Ending::TimeUp)?;
    assert!(rt; out.as_slice() == b"-%TIME_UP".as_slice());
    Ok(())
}

#[test]
fn heads_of_a_start(rt: HostRuntime) {
    assert!(rt; even_head() == *b"PI");
    assert!(rt; rank_head(9) == *b"P9");
    assert!(rt; pieces_head(Color::White) == *b"P-");
}

#[test]
fn writes_times(rt: HostRuntime) -> Result<(), OutOfMemory> {
    let mut out = Vec::new(rt.alloc());
    for thousandths in [
        0,
        9_000,
        10_000,
        99_000,
        100_000,
        500,
        50,
        1_005,
        4_294_967_295_999,
    ] {
        write_time(&mut out, thousandths)?;
    }
    assert!(rt; out.as_slice() == b"T0T9T10T99T100T0.5T0.05T1.005T4294967295.999".as_slice());
    Ok(())
}

use csa_cutting::{CutFault, Cutter, Statement, laws};
use std::alloc::AllocError;

#[test]
fn cuts_a_source(rt: HostRuntime) {
    let mut cutter = Cutter::new(b"\xEF\xBB\xBFV2.2\r\n\r\n,, PI \t\n'x\n+");
    for (number, offset, bytes) in [(1, 3, b"V2.2".as_slice()), (2, 14, b"PI"), (3, 22, b"+")] {
        let statement = Statement {
            number,
            offset,
            bytes,
        };
        assert!(rt; cutter.next_statement() == Ok(Some(statement)));
    }
    assert!(rt; cutter.next_statement() == Ok(None));
    laws::cut_once();
    laws::first_is_stated();
    laws::lines_once();
    laws::closed_once();
    laws::too_long_once();
    laws::step_whole();
    laws::finish_whole();
    laws::next_whole();
    laws::line_step_whole();
    laws::pieces_run();
    laws::cutter_run();
    laws::never_both();
    laws::statements_alike();
    laws::lines_run();
}

// A statement of 4,096 bytes is accepted. One of 4,097 is refused, at each call; blanks at its end
// count.
#[test]
fn limits_a_statement(rt: HostRuntime) {
    let mut source = [b' '; 4100];
    source[0] = b'\n';
    source[1] = b'+';
    for (end, fits) in [(4097usize, true), (4098, false)] {
        let mut cutter = Cutter::new(&source[..end]);
        for _ in 0..2 {
            let answer = cutter.next_statement();
            if fits {
                assert!(rt; answer.is_ok());
            } else {
                let fault = CutFault {
                    number: 1,
                    offset: 1,
                };
                assert_eq!(rt; answer, Err(fault));
            }
        }
    }
}

#[test]
fn prints_a_fault(rt: HostRuntime) -> Result<(), AllocError> {
    let fault = CutFault {
        number: 4,
        offset: 28,
    };
    let text = format!(in rt.alloc(); "{fault}")?;
    assert!(rt; text.as_str() == "statement 4, offset 28: C1 StatementTooLong");
    Ok(())
}

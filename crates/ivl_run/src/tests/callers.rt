//! A caller of a session, with a reader and a writer whose contracts name their bytes.
ghost use Rattle.std.specs.Prelude.{IfOk};
ghost use Rattle.ivl_lines.specs.Lines.{lines_of};
ghost use Rattle.ivl_calculator_lines.specs.Session.{IsSessionText};

use ivl_calculator_lines::{SessionFault, session};
use std::alloc::Global;
use std::test::Fail;

/// What a session writes for its input is the text for the lines of it.
fn written_for(alloc: Global, input: &[u8]) -> Result<Vec<u8>, SessionFault>
    ensures { IfOk result (λ w. IsSessionText (lines_of input.now) w.items) }
{
    let mut reader = input;
    let mut written = Vec::new(alloc);
    session(alloc, &mut reader, &mut written)?;
    Ok(written)
}

#[test]
fn a_session_over_memory(rt: HostRuntime) -> Result<(), Fail> {
    let written = written_for(rt.alloc(), b"set a 5 6\nshow a");
    assert!(rt; written.is_ok_and(|text| text.as_slice() == b"ok\n[5..6]\n".as_slice()));
    Ok(())
}

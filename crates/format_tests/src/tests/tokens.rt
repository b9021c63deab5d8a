//! Texts and their first faults, as the grammar gives them.

use sl_base::{Memory, Refused};
use std::alloc::Global;
use std::fmt::Write;
use std::test::Fail;
use tracer_text::{Node, Nodes, ScriptCause, ScriptFault, first_pass, nodes_of};

/// The first fault of a text, or how many tokens it has.
fn outcome(alloc: Global, text: &[u8]) -> Result<Result<usize, ScriptFault>, Memory> {
    match first_pass(alloc, text) {
        Ok(tokens) => Ok(Ok(tokens.len())),
        Err(Refused::Fault(fault)) => Ok(Err(fault)),
        Err(Refused::Memory) => Err(Memory),
    }
}

#[test]
fn tells_the_first_fault(rt: HostRuntime) -> Result<(), Fail> {
    use ScriptCause::{Byte, Paren};
    let rows: [(&[u8], Result<usize, (u32, ScriptCause)>); 24] = [
        (b"", Ok(0)),
        (b" \t\r\n", Ok(0)),
        (b"; \x00\x7f\xff (", Ok(0)),
        (b";(\n)", Err((3, Paren))),
        (b"; a\r\nb", Ok(1)),
        (b"a;b\nc", Ok(2)),
        (b"a b", Ok(2)),
        (b"a(b)c", Ok(5)),
        (b"()", Ok(2)),
        (b"(at (addr 0x10) (emit (reg 10)))", Ok(14)),
        (b"!~", Ok(1)),
        (b"\x00", Err((0, Byte))),
        (b"ab\x7f", Err((2, Byte))),
        (b"a \x80", Err((2, Byte))),
        (b"\x0b", Err((0, Byte))),
        (b"\x1f", Err((0, Byte))),
        (b")", Err((0, Paren))),
        (b"(", Err((1, Paren))),
        (b"(a) )", Err((4, Paren))),
        (b"((a)", Err((4, Paren))),
        (b"( ; )", Err((5, Paren))),
        (b") \x00", Err((0, Paren))),
        (b"\x00 )", Err((0, Byte))),
        (b"( \x00", Err((2, Byte))),
    ];
    for (text, want) in rows {
        let got = outcome(rt.alloc(), text)?;
        let want = match want {
            Ok(tokens) => Ok(tokens),
            Err((place, cause)) => Err(ScriptFault { place, cause }),
        };
        assert!(rt; got == want, "{text:?}");
    }
    Ok(())
}

/// So many copies of a piece, and then a last one.
fn repeated(alloc: Global, piece: &[u8], times: usize, last: &[u8]) -> Result<Vec<u8>, Memory> {
    let mut text = Vec::new(alloc);
    for _ in 0..times {
        text.extend_from_slice(piece)?;
    }
    text.extend_from_slice(last)?;
    Ok(text)
}

#[test]
fn tells_what_is_too_large(rt: HostRuntime) -> Result<(), Fail> {
    use ScriptCause::{Byte, Paren, TooDeep, TooLarge};
    let rows: [(&[u8], usize, &[u8], Result<usize, (u32, ScriptCause)>); 15] = [
        (b"a ", 4096, b"", Ok(4096)),
        (b"a ", 4096, b"b", Err((8192, TooLarge))),
        (b"a ", 4096, b"(", Err((8192, TooLarge))),
        (b"a ", 4096, b")", Err((8192, Paren))),
        (b"a ", 4095, b"()", Ok(4097)),
        (b"(", 64, b"", Err((64, Paren))),
        (b"(", 65, b"", Err((64, TooDeep))),
        (b"()", 2048, b"", Ok(4096)),
        (b" ", 65_536, b"", Ok(0)),
        (b" ", 65_537, b"", Err((65_536, TooLarge))),
        (b" ", 65_536, b"\x00", Err((65_536, Byte))),
        (b" ", 65_536, b")", Err((65_536, Paren))),
        (b" ", 65_535, b"( ", Err((65_536, TooLarge))),
        (b" ", 65_535, b"(", Err((65_536, Paren))),
        (b" ", 65_537, b"\x00", Err((65_536, TooLarge))),
    ];
    for (piece, times, last, want) in rows {
        let text = repeated(rt.alloc(), piece, times, last)?;
        let got = outcome(rt.alloc(), &text)?;
        let want = match want {
            Ok(tokens) => Ok(tokens),
            Err((place, cause)) => Err(ScriptFault { place, cause }),
        };
        assert!(rt; got == want, "{times} times {piece:?}, and {last:?}");
    }
    Ok(())
}

/// The nodes as text: places of tokens, and lists with theirs.
fn spell(text: &mut String, nodes: &Nodes) -> Result<(), Memory> {
    match nodes {
        Nodes::End => Ok(()),
        Nodes::And(node, rest) => {
            match &**node {
                Node::Atom(token) => {
                    let (place, end) = (token.place, token.end);
                    write!(text, " {place}-{end}").map_err(|_| Memory)?;
                }
                Node::List(place, inside) => {
                    write!(text, " {place}[").map_err(|_| Memory)?;
                    spell(text, inside)?;
                    text.push_str(" ]")?;
                }
            }
            spell(text, rest)
        }
    }
}

#[test]
fn makes_nodes(rt: HostRuntime) -> Result<(), Fail> {
    let rows: [(&[u8], &str); 4] = [
        (b"", ""),
        (b"ab (c) ()", " 0-2 3[ 4-5 ] 7[ ]"),
        (
            b"(at (addr 1); x\n(emit(pc)))",
            " 0[ 1-3 4[ 5-9 10-11 ] 16[ 17-21 21[ 22-24 ] ] ]",
        ),
        (b"((a)((b)))", " 0[ 1[ 2-3 ] 4[ 5[ 6-7 ] ] ]"),
    ];
    for (text, want) in rows {
        let tokens = first_pass(rt.alloc(), text);
        let Ok(tokens) = tokens else {
            panic!(rt; "a fault in {text:?}")
        };
        let nodes = nodes_of(rt.alloc(), text, tokens.as_slice())?;
        let mut spelled = String::new(rt.alloc());
        spell(&mut spelled, &nodes)?;
        assert_eq!(rt; spelled.as_str(), want);
    }
    Ok(())
}

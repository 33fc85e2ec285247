// Questions the library from outside: one call a line on standard input, in hexadecimal, and its whole
// answer, a line, on standard output. docs/PROBE.md says how a question is written and what is
// answered; a line that is no question is answered by a question mark.
//
// Nothing is kept from one question to the next, and the memory does not grow with the input.
#![tactic(auto)]

mod calls;
mod fields;
mod question;
mod show;
mod text;

use fields::{Fields, Room};
use std::io::Read;
use text::{Line, Text};

// Puts the answer to a question, if the line is one.
fn replied(line: &Line, room: &mut Room, text: &mut Text) -> Option<()> {
    let mut bytes = [0u8; 8192];
    let rest = line.bytes(&mut bytes)?;
    let mut fields = Fields { rest };
    calls::made(&mut fields, room, text)
}

// Answers a line.
fn answer(line: &Line, room: &mut Room, text: &mut Text) {
    match replied(line, room, text) {
        Some(()) => text.write(),
        None => text::write_unknown(),
    }
}

// Takes a part of the input: each line that ends in it is answered.
fn take(part: &[u8], line: &mut Line, room: &mut Room, text: &mut Text) {
    for c in part {
        if *c == b'\n' {
            answer(line, room, text);
            line.clear();
        } else {
            line.put(*c);
        }
    }
}

// A proved loop has to end, and nothing says that the input does: it has as many turns as no run uses up. A
// failed read counts as the end. A last line may lack its line feed.
fn main(rt: HostRuntime) {
    let mut part = [0u8; 65536];
    let mut line = Line::new();
    let mut room = Room::new();
    let mut text = Text::new();
    for _ in 0..u64::MAX {
        let n = rt.stdin().read(&mut part).unwrap_or(0);
        if n == 0 {
            break;
        }
        take(&part[..n], &mut line, &mut room, &mut text);
    }
    if !line.is_empty() {
        answer(&line, &mut room, &mut text);
    }
}

// Makes the calls. Each function bears the name of the call that it makes, reads the fields that the call
// has, and puts what it answers: nothing, where the fields make no question. A call that is lent a space
// finds it filled, and the space is shown whole behind the answer, whatever was done with it.
// (decode and encode differ in the call alone, and so do open_or and open_or_keep: each bears its call's name. Handed the
// call as a function, one for the first two could not show the space: the call's slices have one lifetime, so it stays lent.)
use crate::fields::{Fields, Room};
use crate::question::Call;
use crate::text::Text;

// Whether there was a question. (The three parameters of the calls are no struct: in a method the check does not cover
// the loans of two of its fields at once, and to take it apart first is no shorter.)
type Answer = Option<()>;

fn key_call(fields: &mut Fields, room: &mut Room, text: &mut Text) -> Answer {
    let order = fields.number()?;
    let bits = fields.number()?;
    let k = fields.bytes(&mut room.first)?;
    let l = fields.bytes(&mut room.second)?;
    fields.end()?;
    text.key_answer(keys::key_call(order, bits, k, l).into());
    Some(())
}

fn read(fields: &mut Fields, room: &mut Room, text: &mut Text) -> Answer {
    let line = fields.bytes(&mut room.first)?;
    fields.end()?;
    text.key_answer(keyline::read(line).into());
    Some(())
}

fn start(fields: &mut Fields, text: &mut Text) -> Answer {
    fields.end()?;
    text.stream(&stream::start());
    Some(())
}

fn add(fields: &mut Fields, room: &mut Room, text: &mut Text) -> Answer {
    let set = fields.key_set()?;
    let s = fields.stream()?;
    let part = fields.bytes(&mut room.first)?;
    fields.end()?;
    text.added((s, stream::add(set, s, part)).into());
    Some(())
}

fn close(fields: &mut Fields, room: &mut Room, text: &mut Text) -> Answer {
    let set = fields.key_set()?;
    let s = fields.stream()?;
    let space = fields.space(&mut room.space)?;
    fields.end()?;
    text.tag_answer(stream::close(set, s, space).into());
    text.bytes(space);
    Some(())
}

fn check(fields: &mut Fields, room: &mut Room, text: &mut Text) -> Answer {
    let set = fields.key_set()?;
    let s = fields.stream()?;
    let received = fields.bytes(&mut room.first)?;
    fields.end()?;
    text.tag_answer(stream::check(set, s, received).into());
    Some(())
}

fn tag(fields: &mut Fields, room: &mut Room, text: &mut Text) -> Answer {
    let set = fields.key_set()?;
    let message = fields.bytes(&mut room.first)?;
    let space = fields.space(&mut room.space)?;
    fields.end()?;
    text.tag_answer(message::tag(set, message, space).into());
    text.bytes(space);
    Some(())
}

fn verify(fields: &mut Fields, room: &mut Room, text: &mut Text) -> Answer {
    let set = fields.key_set()?;
    let message = fields.bytes(&mut room.first)?;
    let received = fields.bytes(&mut room.second)?;
    fields.end()?;
    text.tag_answer(message::verify(set, message, received).into());
    Some(())
}

fn decode(fields: &mut Fields, room: &mut Room, text: &mut Text) -> Answer {
    let line = fields.bytes(&mut room.first)?;
    let space = fields.space(&mut room.space)?;
    fields.end()?;
    text.line_answer(hex_line::decode(line, space).into());
    text.bytes(space);
    Some(())
}

fn judge(fields: &mut Fields, room: &mut Room, text: &mut Text) -> Answer {
    let set = fields.key_set()?;
    let frame = fields.bytes(&mut room.first)?;
    fields.end()?;
    text.frame_answer(frame::judge(set, frame).into());
    Some(())
}

fn open(fields: &mut Fields, room: &mut Room, text: &mut Text) -> Answer {
    let set = fields.key_set()?;
    let frame = fields.bytes(&mut room.first)?;
    fields.end()?;
    text.part(frame::open(set, frame));
    Some(())
}

fn open_or(fields: &mut Fields, room: &mut Room, text: &mut Text) -> Answer {
    let set = fields.key_set()?;
    let frame = fields.bytes(&mut room.first)?;
    let table = fields.bytes(&mut room.second)?;
    fields.end()?;
    text.part(frame::open_or(set, frame, table));
    Some(())
}

fn open_or_keep(fields: &mut Fields, room: &mut Room, text: &mut Text) -> Answer {
    let set = fields.key_set()?;
    let frame = fields.bytes(&mut room.first)?;
    let table = fields.bytes(&mut room.second)?;
    fields.end()?;
    text.part(bridge::open_or_keep(set, frame, table));
    Some(())
}

fn encode(fields: &mut Fields, room: &mut Room, text: &mut Text) -> Answer {
    let bytes = fields.bytes(&mut room.first)?;
    let space = fields.space(&mut room.space)?;
    fields.end()?;
    text.line_answer(hex_line::encode(bytes, space).into());
    text.bytes(space);
    Some(())
}

fn write(fields: &mut Fields, room: &mut Room, text: &mut Text) -> Answer {
    let set = fields.key_set()?;
    let body = fields.bytes(&mut room.first)?;
    let space = fields.space(&mut room.space)?;
    fields.end()?;
    text.written(writer::write(set, body, space).into());
    text.bytes(space);
    Some(())
}

// Makes the call that a question asks for, and puts what it answers.
pub(crate) fn made(fields: &mut Fields, room: &mut Room, text: &mut Text) -> Answer {
    match Call::try_from(fields.byte()?).ok()? {
        Call::KeyCall => key_call(fields, room, text),
        Call::Read => read(fields, room, text),
        Call::Start => start(fields, text),
        Call::Add => add(fields, room, text),
        Call::Close => close(fields, room, text),
        Call::Check => check(fields, room, text),
        Call::Tag => tag(fields, room, text),
        Call::Verify => verify(fields, room, text),
        Call::Decode => decode(fields, room, text),
        Call::Judge => judge(fields, room, text),
        Call::Open => open(fields, room, text),
        Call::OpenOr => open_or(fields, room, text),
        Call::OpenOrKeep => open_or_keep(fields, room, text),
        Call::Encode => encode(fields, room, text),
        Call::Write => write(fields, room, text),
    }
}

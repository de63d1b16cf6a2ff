// Each effect on a site that was read, with its line written out by hand.
use cts_base::Bytes;
use cts_def::Site;
use cts_entry::Effect;
use cts_rows::{Answers, as_text, bytes_of, cut, debug_of, number, part, rows_end_so, same};
use cts_samples::site_of;
use cts_script::effect_line;
use std::alloc::Global;
use std::test::Fail;

/// Two interfaces and two routers, without definitions.
pub const SITE: &str = "\
INTERFACE I tcpip_client_interface.rb h 1 1 nil nil;\
INTERFACE INST_INT tcpip_server_interface.rb 2 2 nil nil;\
ROUTER OUT tcpip_server_interface.rb 3 3 nil nil;\
ROUTER BACK tcpip_server_interface.rb 4 4 nil nil";

/// The line of an effect, between quotes, in which `\n` is a line end.
fn line_of(alloc: Global, effect: &Effect) -> Result<String, Fail> {
    let site = site_of(alloc, "", SITE)?;
    line_at(alloc, &site, effect)
}

fn line_at(alloc: Global, site: &Site, effect: &Effect) -> Result<String, Fail> {
    let line = effect_line(alloc, site, effect)?;
    debug_of(alloc, &as_text(line.as_slice())?)
}

/// A reply's desk, the count of entries in front of it, and its text or `-`; and its line.
const REPLIES: &str =
    r#"0 12 {"id":1,"result":"-3.5 C"}|"REPLY DESK/0 12 {\"id\":1,\"result\":\"-3.5 C\"}\n"
3 18446744073709551615 -|"REPLY DESK/3 18446744073709551615 -\n""#;

struct Replies;

impl Answers for Replies {
    fn answer(alloc: Global, asked: &str) -> Result<String, Fail> {
        let (desk, rest) = cut(asked, ' ')?;
        let (front, text) = cut(rest, ' ')?;
        let text = text_of(alloc, text)?;
        line_of(alloc, &reply(number(desk, 0)?, number(front, 0)?, text))
    }
}

fn text_of(alloc: Global, text: &str) -> Result<Option<Bytes>, Fail> {
    if text == "-" {
        return Ok(None);
    }
    Ok(Some(Bytes::copy(alloc, text.as_bytes())?))
}

fn reply(desk: u32, front: u64, text: Option<Bytes>) -> Effect {
    Effect::Reply { desk, front, text }
}

#[test]
fn replies_have_their_lines(rt: HostRuntime) -> Result<(), Fail> {
    rows_end_so::<Replies>(rt.alloc(), REPLIES)
}

#[test]
fn what_says_nothing_has_its_line(rt: HostRuntime) -> Result<(), Fail> {
    let found = line_of(rt.alloc(), &Effect::Posted)?;
    same(found.as_str(), "\"\"", "a post")
}

/// Whether bytes are written to an interface or routed to a slot, its number, and the bytes; and their line.
const OUTGOING: &str = r#"written 1 0700ab|"WRITTEN INST_INT 0700ab\n"
written 0|"WRITTEN I -\n"
routed 19 4849|"ROUTED BACK/1 4849\n"
routed 16|"ROUTED OUT/0 -\n""#;

struct Outgoing;

impl Answers for Outgoing {
    fn answer(alloc: Global, asked: &str) -> Result<String, Fail> {
        let bytes = Bytes::of(bytes_of(alloc, part(asked, 2))?);
        line_of(alloc, &going_out(part(asked, 0), number(asked, 1)?, bytes))
    }
}

fn going_out(word: &str, number: u32, bytes: Bytes) -> Effect {
    if word == "written" {
        return Effect::Written {
            interface: number,
            bytes,
        };
    }
    Effect::Routed {
        slot: number,
        bytes,
    }
}

#[test]
fn bytes_that_go_out_have_their_lines(rt: HostRuntime) -> Result<(), Fail> {
    rows_end_so::<Outgoing>(rt.alloc(), OUTGOING)
}

fn logged(alloc: Global) -> Result<Effect, Fail> {
    Ok(Effect::Logged {
        tlm: Bytes::copy(alloc, b"0123456789")?,
        cmd: Bytes::copy(alloc, b"")?,
    })
}

#[test]
fn logs_have_their_lines(rt: HostRuntime) -> Result<(), Fail> {
    let found = line_of(rt.alloc(), &logged(rt.alloc())?)?;
    same(found.as_str(), "\"LOGGED 10 0\\n\"", "a log")
}

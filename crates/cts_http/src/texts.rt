//! The bytes of responses and refusals (RFC 9112, sections 2 to 4 and 6.2; RFC 9110, section 15).

ghost use Rattle.std.specs.Prelude.{◌≡◌, ◌≤◌, ◌++◌, length, drop, take, IsTrue};
ghost use Rattle.std.specs.List.{flat_map};
ghost use Rattle.cts_http.specs.Texts.{is_refusal, phrase, allow_line, response_text, refusal_text, Writes};

use http::StatusCode;
use itoa::Buffer;

/// Writes the head of a response whose body has `length` bytes, or the whole response to a notification where there is
/// no length, from the first byte of `out` on, and answers how many bytes that are. The others keep what they have. `front`
/// is the count of entries of the history from which the response answers.
pub fn response(front: u64, length: Option<u64>, out: &mut [u8; 160]) -> usize
    ensures { Writes (response_text front length) out.old out.new result }
{
    let mut first = Buffer::new();
    let mut second = Buffer::new();
    let front = first.format(front).as_bytes();
    match length {
        Some(n) => put_pieces(
            out,
            &[
                b"HTTP/1.1 200 OK\r\nContent-Type: application/json-rpc\r\nContent-Length: ",
                second.format(n).as_bytes(),
                b"\r\nX-Cts-Front: ",
                front,
                b"\r\n\r\n",
            ],
        ),
        None => put_pieces(
            out,
            &[
                b"HTTP/1.1 204 No Content\r\nX-Cts-Front: ",
                front,
                b"\r\n\r\n",
            ],
        ),
    }
}

// Puts the pieces one after another.
fn put_pieces(out: &mut [u8; 160], pieces: &[&[u8]]) -> usize
    requires room { length (flat_map (λ p. p.now) pieces.now) ≤ 160 }
    ensures { Writes (flat_map (λ p. p.now) pieces.now) out.old out.new result }
{
    let mut at = 0;
    for piece in pieces {
        let end = at + piece.len();
        out[at..end].copy_from_slice(piece);
        at = end;
    }
    at
}

/// Writes a whole refusal with this status, which is one of those of [`crate::HttpStep::Refuse`], from the first byte of `out` on, and
/// answers how many bytes that are. The
/// others keep what they have.
pub fn refusal(status: u16, out: &mut [u8; 160]) -> usize
    requires { IsTrue (is_refusal status) }
    ensures { Writes (refusal_text status) out.old out.new result }
{
    let code = StatusCode::from_u16(status).unwrap();
    let phrase = phrase_of(code);
    let mut digits = Buffer::new();
    let allow = allow_line(status);
    put_pieces(
        out,
        &[
            b"HTTP/1.1 ",
            digits.format(status).as_bytes(),
            b" ",
            phrase,
            b"\r\n",
            allow,
            b"Content-Length: 0\r\nConnection: close\r\n\r\n",
        ],
    )
}

fn phrase_of(code: StatusCode) -> &'static [u8]
    requires { IsTrue (is_refusal code) }
    ensures text { result.now ≡ phrase code }
    ensures short { length result.now ≤ 31 }
{
    code.canonical_reason().unwrap().as_bytes()
}

fn allow_line(status: u16) -> &'static [u8]
    ensures text { result.now ≡ allow_line status }
    ensures short { length result.now ≤ 13 }
{
    if status == 405 {
        b"Allow: POST\r\n"
    } else {
        b""
    }
}

// Sites of one interface, and bytes, names and labels of rows.
use cts_def::{Label, Site, Time};
use cts_rows::{bytes_of, digits_of};
use cts_samples::{name_of, site_of};
use std::alloc::Global;
use std::test::Fail;

/// A target with one packet of three bytes, which begins with a byte 1.
const DEFINITIONS: &str =
    "TELEMETRY T A BIG_ENDIAN;APPEND_ID_ITEM K 8 UINT 1;APPEND_ITEM V 16 UINT";

/// The site with one interface of the target that has these protocol words, and those of the lines after `;`.
pub fn site_with(alloc: Global, protocols: &str) -> Result<Site, Fail> {
    let site = format!(in alloc;
        "INTERFACE I tcpip_client_interface.rb localhost 8080 8080 10.0 nil {protocols};TARGET T"
    )?;
    site_of(alloc, DEFINITIONS, site.as_str())
}

/// The bytes of pairs of hexadecimal digits, or as many bytes 1 as stand after `*`.
pub fn bytes_in(alloc: Global, digits: &str) -> Result<Vec<u8>, Fail> {
    match digits.strip_prefix("*") {
        Some(count) => ones(alloc, count),
        None => bytes_of(alloc, digits),
    }
}

/// So many bytes 1.
fn ones(alloc: Global, count: &str) -> Result<Vec<u8>, Fail> {
    Ok(vec![in alloc; 1; count.parse::<usize>()?]?)
}

/// A name as it stands, or as many letters N as stand after `*`.
pub fn name_text(alloc: Global, text: &str) -> Result<String, Fail> {
    match text.strip_prefix("*") {
        Some(count) => Ok("N".repeat(alloc, count.parse::<usize>()?)?),
        None => Ok(text.to_string(alloc)?),
    }
}

/// The label of these names, of a packet that was not stored.
pub fn label_of(alloc: Global, time: Time, target: &str, packet: &str) -> Result<Label, Fail> {
    marked(alloc, time, target, packet, false)
}

/// The label of these names, of a packet that was stored or not.
pub fn marked(
    alloc: Global,
    time: Time,
    target: &str,
    packet: &str,
    stored: bool,
) -> Result<Label, Fail> {
    Ok(Label {
        time,
        target: name_of(alloc, target)?,
        packet: name_of(alloc, packet)?,
        stored,
    })
}

/// The hexadecimal digits of bytes, or how many bytes there are where they are more than 100.
pub fn shown(alloc: Global, bytes: &[u8]) -> Result<String, Fail> {
    if bytes.len() > 100 {
        return Ok(format!(in alloc; "{}", bytes.len())?);
    }
    digits_of(alloc, bytes)
}

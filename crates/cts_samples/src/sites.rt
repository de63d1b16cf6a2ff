// Statements, definitions and sites of texts. What is owned and has many parts is slow to prove where a `?` may let it go: so what a
// call is lent is read first, and the definitions, which it takes, last.
use cts_base::Name;
use cts_def::{Definitions, Packet, Site};
use cts_defread::read_definitions;
use cts_plan::read_site;
use cts_rows::lines;
use cts_words::{Statement, statements};
use std::alloc::Global;
use std::test::Fail;

/// The statements of a text.
pub fn statements_of(alloc: Global, text: &str) -> Result<Vec<Statement>, Fail> {
    let text = lines(alloc, text)?;
    statements_in(alloc, &text)
}

fn statements_in(alloc: Global, text: &[u8]) -> Result<Vec<Statement>, Fail> {
    if text.len() > 67_108_864 {
        return Err(Fail::new("too large"));
    }
    Ok(statements(alloc, text)?)
}

/// The definitions of a text.
pub fn definitions_of(alloc: Global, text: &str) -> Result<Definitions, Fail> {
    let found = statements_of(alloc, text)?;
    Ok(read_definitions(alloc, &found)?)
}

/// The site of these statements over the definitions of a text.
pub fn site_over(alloc: Global, found: &[Statement], definitions: &str) -> Result<Site, Fail> {
    let definitions = definitions_of(alloc, definitions)?;
    Ok(read_site(alloc, found, definitions)?)
}

/// The site of two texts.
pub fn site_of(alloc: Global, definitions: &str, site: &str) -> Result<Site, Fail> {
    let found = statements_of(alloc, site)?;
    site_over(alloc, &found, definitions)
}

/// The only telemetry packet of these definitions.
pub fn only_packet(definitions: &Definitions) -> Result<&Packet, Fail> {
    match definitions.telemetry.as_slice() {
        [packet] => Ok(packet),
        _ => Err(Fail::new("another count of packets")),
    }
}

/// The name of a text.
pub fn name_of(alloc: Global, text: &str) -> Result<Name, Fail> {
    match Name::read(alloc, text.as_bytes()) {
        Ok(name) => Ok(name),
        Err(_) => Err(Fail::new("no name")),
    }
}

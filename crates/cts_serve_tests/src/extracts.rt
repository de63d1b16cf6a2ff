// Columns of log files.
use crate::demo::DEFINITIONS;
use crate::dumps::log_of;
use crate::faults::numbers_of;
use crate::table::{ended_stocked, hold_bytes, rows_told};
use cts_outside::{MemFiles, MemSink, MemVault};
use cts_rows::{Answers, bytes_by_number, cut, part};
use std::alloc::Global;
use std::test::Fail;

/// Of a log: its mark and digits, how many of its bytes there are, its entries, the read and the put that fail, and after `@` what is asked
/// for: how the columns end. The definitions are those of the demo; a tab is printed as `/`.
struct Extracts;

impl Answers for Extracts {
    fn answer(alloc: Global, asked: &str) -> Result<String, Fail> {
        let (file, words) = cut(asked, '@')?;
        let mut held = Vec::new(alloc);
        hold_bytes(alloc, &mut held, "d", bytes_by_number(alloc, DEFINITIONS)?)?;
        hold_bytes(alloc, &mut held, "l", log_of(alloc, file)?)?;
        let mut files = MemFiles::new(held, numbers_of(alloc, part(file, 3))?);
        let mut sink = MemSink::new(alloc, numbers_of(alloc, part(file, 4))?);
        let mut vault = MemVault::new(alloc, Vec::new(alloc));
        let words = format!(in alloc; "extract {words}")?;
        let ended = ended_stocked(alloc, words.as_str(), &mut files, &mut sink, &mut vault)?;
        Ok(ended.replace(alloc, '\t', "/")?)
    }
}

const COLUMNS: &str = "\
two rows|COSMOS2_TLM_d41d8cd98f00b204e9800998ecf8427e 999 000000640003d09003415558044c494e45000000024849000000640003d09004494e53540248530000000401800001000000640003d09004494e53540248530000000401900001 - -@d l INST HS WITH_UNITS TEMP1,MODE|Ok TIME/TEMP1/MODE;100.250000/-0.058 C/ON;100.250000/12.435 C/ON;
names in any case|COSMOS2_TLM_d41d8cd98f00b204e9800998ecf8427e 151 000000640003d09003415558044c494e45000000024849 - -@d l aux line RAW text|Ok TIME/TEXT;100.250000/HI;
an unknown item|COSMOS2_TLM_d41d8cd98f00b204e9800998ecf8427e 151 000000640003d09003415558044c494e45000000024849 - -@d l INST HS WITH_UNITS TEMP1,NOPE|UnknownName unknown: NOPE;
an unknown target first|COSMOS2_TLM_d41d8cd98f00b204e9800998ecf8427e 151 000000640003d09003415558044c494e45000000024849 - -@d l nope no WITH_UNITS no|UnknownName unknown: nope;
packets in a log of commands|COSMOS2_CMD_d41d8cd98f00b204e9800998ecf8427e 128 00 - -@d l INST HS RAW MODE|UnknownName unknown: HS;
an empty item|COSMOS2_TLM_d41d8cd98f00b204e9800998ecf8427e 128 00 - -@d l INST HS RAW MODE,|UnknownName unknown: ;
a head alone|COSMOS2_TLM_d41d8cd98f00b204e9800998ecf8427e 128 00 - -@d l INST HS RAW MODE|Ok TIME/MODE;
no head, before an unknown name|COSMOS2_TLM_d41d8cd98f00b204e9800998ecf8427e 127 00 - -@d l NOPE no RAW no|LogRefused log refused at 0;
an unknown name before an entry that is cut|COSMOS2_TLM_d41d8cd98f00b204e9800998ecf8427e 129 00 - -@d l INST HS RAW no|UnknownName unknown: no;
rows before an entry that is cut|COSMOS2_TLM_d41d8cd98f00b204e9800998ecf8427e 153 000000640003d09004494e5354024853000000040180000100 - -@d l INST HS RAW MODE|LogRefused TIME/MODE;100.250000/1;log refused at 152;
entries of layout 4|COSMOS4_TLM_d41d8cd98f00b204e9800998ecf8427e 178 80000000640003d09004494e5354024853000000040190000100000000640003d09004494e53540248530000000401900001 - -@d l INST HS RAW PKTID,MODE|Ok TIME/PKTID/MODE;100.250000/1/1;100.250000/1/1;
the definitions cannot be read|COSMOS2_TLM_d41d8cd98f00b204e9800998ecf8427e 128 00 0 -@d l INST HS RAW MODE|ReadFault read fault: d;
the log cannot be read|COSMOS2_TLM_d41d8cd98f00b204e9800998ecf8427e 128 00 2 -@d l INST HS RAW MODE|ReadFault read fault: l;
no log|COSMOS2_TLM_d41d8cd98f00b204e9800998ecf8427e 128 00 - -@d x INST HS RAW MODE|Absent absent: x;
no definitions|COSMOS2_TLM_d41d8cd98f00b204e9800998ecf8427e 128 00 - -@x y INST HS RAW MODE|Absent absent: x;
the heading cannot be put|COSMOS2_TLM_d41d8cd98f00b204e9800998ecf8427e 152 000000640003d09004494e53540248530000000401800001 - 0@d l INST HS RAW MODE|WriteFault 
a row cannot be put|COSMOS2_TLM_d41d8cd98f00b204e9800998ecf8427e 152 000000640003d09004494e53540248530000000401800001 - 1@d l INST HS RAW MODE|WriteFault TIME/MODE;";

#[test]
fn columns_are_put(rt: HostRuntime) -> Result<(), Fail> {
    rows_told::<Extracts>(rt.alloc(), COLUMNS)
}

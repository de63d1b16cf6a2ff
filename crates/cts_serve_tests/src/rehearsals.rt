// Rehearsals: the eight lines of what their events were.
use crate::table::commands_end_so;
use std::test::Fail;

const REHEARSED: &str = "rehearse $|-|-|-|Ok $";

// Another program made the events, and counted in the transcript and the log of their replay.
const SUMMARIES: &str = "\
a command that is not written|1|entries 4;packets 0;commands 1;refused 0;events 0;log bytes 0;log md5 d41d8cd98f00b204e9800998ecf8427e;END 4;
two packets|2|entries 5;packets 2;commands 0;refused 0;events 1;log bytes 83;log md5 ac70f270460e7a8e87f374fb180bc6c4;END 5;
ten choices|10|entries 14;packets 8;commands 1;refused 0;events 1;log bytes 236;log md5 318313f8eebcb66951cd2984f68b5e28;END 14;
a thousand choices|1000|entries 968;packets 621;commands 108;refused 12;events 271;log bytes 17218;log md5 9ea6e5af27c22f59362c4a61c634512c;END 968;";

#[test]
fn rehearsals_have_their_summary(rt: HostRuntime) -> Result<(), Fail> {
    commands_end_so(rt.alloc(), REHEARSED, SUMMARIES)
}

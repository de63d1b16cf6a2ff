// The files that a hub reads.
use crate::file_name::FileName;

/// The names of its files: definitions, the site above, a script of that site, and the site below.
#[derive(Drop)]
pub struct Sources<'r, 'a> {
    pub definitions: &'r FileName<'a>,
    pub site: &'r FileName<'a>,
    pub script: &'r FileName<'a>,
    pub below: &'r FileName<'a>,
}

// What the words of the command line ask for, where they ask for a server.
ghost use Rattle.std.specs.Prelude.{◌≡◌, map};
ghost use Rattle.cts_serve.specs.Words.{asked_to_serve};

use cts_run::FileName;

/// The names of the definitions and of the site, if the words ask for a server over them.
pub(crate) fn read_serving<'a>(words: &[&'a str]) -> Option<(FileName<'a>, FileName<'a>)>
    ensures { result ≡ asked_to_serve (map (λ w. w.now) words.now) }
{
    match words {
        [command, definitions, site] if *command == "serve" => {
            Some((FileName::of(*definitions), FileName::of(*site)))
        }
        _ => None,
    }
}

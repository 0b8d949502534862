//! Import for programs in C and Rust, an archive of its own. No part of the image.
#![tactic(auto)]

ghost use Rattle.std.specs.Prelude.{◌≡◌, length};
ghost use Rattle.sheet.specs.Refusal.{answer_word};
ghost use Rattle.importer.specs.Import.{terms, import_answer, imported};

use importer::import::import;
use importer::terms::Terms;
use sheet::refusal::answer_word;

/// S13.9: import for programs in C and Rust.
#[unsafe(no_mangle)]
pub extern "C" fn dibwunek_import(
    text: &[u8],
    level: u32,
    deadline: u32,
    percentage: u32,
    record: &mut [u8],
) -> u32
    ensures answered { result ≡ answer_word
        (import_answer text.now (terms level deadline percentage) (length «record».old)) }
    ensures written { «record».new ≡ imported text.now (terms level deadline percentage) «record».old }
{
    let terms = Terms {
        level,
        deadline,
        percentage,
    };
    answer_word(import(text, terms, record))
}

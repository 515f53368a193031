// "label twice": whether the records of a list have distinct labels.
ghost use Rattle.std.specs.Prelude.{◌≡◌};
ghost use Rattle.std.specs.List.{list_any};
ghost use Rattle.octets.specs.Choice.{◌is◌, ◌!◌};
ghost use Rattle.board.specs.Files.{distinct};
ghost use Rattle.configuration.specs.InnerFiling.{labels_of};

use board::files::RECORD;

// Whether a label is among those of records.
fn label_among(records: &[[u8; RECORD]], label: u8) -> bool
    ensures { result ≡ list_any (λ r. r ! 0 is label) records.now }
{
    records.iter().any(|head| head[0] == label)
}

// Whether records have distinct labels: each is looked for in the records behind its own.
pub fn labels_distinct(records: &[[u8; RECORD]]) -> bool
    ensures { result ≡ distinct (labels_of records.now) }
{
    let mut left = records;
    while let Some((head, behind)) = left.split_first() {
        if label_among(behind, head[0]) {
            return false;
        }
        left = behind;
    }
    true
}

//! The files that an opening read.
ghost use Rattle.std.specs.Prelude.{◌≡◌, bytes_eq, option_map};
ghost use Rattle.audit_words.specs.EvidenceWords.HostDuids.{read_among};
ghost use Rattle.transcript_lines.specs.Contents.{reading_of};
ghost use Rattle.audit_sites.specs.Reads.{reads_of};

use transcript_lines::FileReading;

/// A file that was read, and what that gave.
#[derive(Drop)]
pub struct FileRead {
    pub name: Vec<u8>,
    pub reading: FileReading,
}

fn is_named(read: &FileRead, name: &[u8]) -> bool
    ensures { result ≡ bytes_eq name.now read.now.name.items }
{
    name == read.name.as_slice()
}

/// What the first reading of a file gave.
pub fn first_reading<'a>(reads: &'a [FileRead], name: &[u8]) -> Option<&'a FileReading>
    ensures { option_map (λ r. reading_of r.now) result ≡ read_among name.now (reads_of reads.now) }
{
    for read in reads {
        if is_named(read, name) {
            return Some(&read.reading);
        }
    }
    None
}

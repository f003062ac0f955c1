//! The law that a configuration and lives in their shape, what hooks are told being printable, are spelled by the
//! texts of their lines.

ghost use Rattle.told_texts.specs.Laws.{ToldIsSpelled};

/// Law: where the lines of a configuration have it, lives have their shape, each line after the head is one that may
/// stand there, and what is told of hooks is printable, the texts of all lines are a transcript that tells this.
pub fn told_is_spelled()
    ensures { ToldIsSpelled }
{}

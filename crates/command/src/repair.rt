// The word `mend`: brings the two copies in step. Assumes what `io` and `std` do.
use crate::copies::Look;
use crate::say::{note, print};
use crate::sentences::{Name, RefusalWords};
use crate::statuses::Status;
use crate::storing::{List, Work};
use crate::{after, facts};
use mend::Rewrite;
use refusal::Reason;
use std::fmt;
use std::fmt::Display;

// What a mend does.
#[derive(Clone, Copy)]
pub(crate) struct Summary(pub Result<Option<Rewrite>, Reason>);

impl Display for Summary {
    fn fmt<W: fmt::Write>(&self, f: &mut fmt::Formatter<W>) -> fmt::Result {
        match self.0 {
            Ok(None) => f.write_str("nothing to store"),
            Err(n) => write!(f, "{}", RefusalWords(n)),
            Ok(Some(p)) => write!(
                f,
                "keeps {}, rewrites {}, {} stores",
                Name::from(p.kept),
                Name::from(copy::other_side(p.kept)),
                mend::count(self.0)
            ),
        }
    }
}

// Whether a mend may be done: all that matters was read, or, where it is told to go on without, all that matters of the copy
// that is kept.
fn allowed(look: Look<'_>, unreadable: bool, p: Rewrite) -> bool {
    let kept = look.copy(p.kept).lent().known();
    if look.sure || unreadable && kept {
        return true;
    }
    let rest = if kept {
        "; mend IMAGE unreadable keeps the copy that was read whole and rewrites the other"
    } else {
        " in the copy that would be kept"
    };
    note(
        look.path,
        format_args!("not done: a sector that matters could not be read{rest}"),
    );
    false
}

// Whether both copies' places lie within the image.
fn within(look: Look<'_>) -> bool {
    if look.numbers().sectors <= look.sectors {
        return true;
    }
    note(
        look.path,
        "not done: the pool's back copy lies past the image's end",
    );
    false
}

// Writes a mend that was worked out, or lists its stores, and says what is then found.
fn store(look: Look<'_>, m: Result<Option<Rewrite>, Reason>, p: Rewrite, dry: bool) -> Status {
    let list = List::of(Work::Repair(m), look.copies(), &[]);
    let out = look.drive.out;
    let printed = print(out, format_args!("{}\n", Summary(m)));
    if dry {
        let listed = printed.and_then(|()| list.print(out, p.bytes as u64));
        return Status::printed(listed).max(list.status());
    }
    if printed.is_err() || !list.is_whole() {
        return facts::nothing_stored(look.path);
    }
    after::carried_out(look, &list, "mended", None)
}

// Does a mend that is needed.
fn mended(
    look: Look<'_>,
    m: Result<Option<Rewrite>, Reason>,
    p: Rewrite,
    dry: bool,
    unreadable: bool,
) -> Status {
    if !allowed(look, unreadable, p) {
        return Status::Failed;
    }
    if !within(look) {
        return look.status().max(Status::Refused);
    }
    let t = facts::found_time(look.copies());
    facts::note_lost(look, true, t);
    store(look, m, p, dry)
}

pub(crate) fn run(look: Look<'_>, dry: bool, unreadable: bool) -> Status {
    let m = mend::work_out(look.copies());
    match m {
        Err(n) => look.status().max(facts::refuse_found(look, n)),
        Ok(None) => {
            let printed = print(look.drive.out, "in step: nothing to store\n");
            look.status().max(Status::printed(printed))
        }
        Ok(Some(p)) => mended(look, m, p, dry, unreadable),
    }
}

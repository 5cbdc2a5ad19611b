//! Files that are put at their places in a folder in memory: what stands there, whichever call fails, wherever a crash comes, and
//! whatever a second run does in between; the same of the plans of an open round, whose outputs are made there.

ghost use Rattle.std.specs.Prelude.{◌≡◌, [], ◌∷◌, ◌++◌, None, IfErr, OnOk, Some};
ghost use Rattle.pocsag_words.specs.GrowingSink.{kept_by};
ghost use Rattle.pocsag_open.specs.Plans.{failed_plan, placed_plan};
ghost use Rattle.pocsag_command_cases.specs.CrashStores.{names_made, placed_by};

use crate::crash_folder::{CrashFolder, OtherStep, bytes_after, put_both};
use crate::crash_store::{PlaceBook, PlanOutputs};
use crate::same;
use pocsag_open::{OutputStore, PlanSettings, run_open};
use pocsag_plan::OnLimit;
use pocsag_shell::{FileFault, Folder, Named, Outputs, Role, StagedFile};
use pocsag_words::{GrowingSink, MemorySink, MemorySource};
use std::alloc::Global;
use std::fs::{self, File};
use std::process::Abort;
use std::rt::Files;
use std::test::Fail;

// A file that is made beside a place. Its bytes are in the folder: the file that is open is another one, which nothing reads.
fn staged<R: Files<File = File> + Abort>(
    rt: &R,
    alloc: Global,
    role: Role,
    place: &str,
) -> StagedFile {
    StagedFile {
        role,
        place: String::from_str(alloc, place).expect(rt, "memory"),
        path: format!(in alloc; "{place}.new").expect(rt, "memory"),
        kept: format!(in alloc; "{place}.old").expect(rt, "memory"),
        file: fs::open(rt, "/dev/null").expect(rt, "a file"),
        named: Named::at(rt, "/dev/null").expect(rt, "a file"),
    }
}

// Removes the files that are still beside their places.
fn remove_made(folder: &mut CrashFolder, files: &[StagedFile]) {
    for file in files {
        let _ = folder.remove(&file.path);
    }
}

// Outputs of an open round that are made in a folder in memory, of which each clause of `OutputStore` is proved.
#[derive(Drop)]
struct CrashStore<'a, R: Files<File = File> + Abort> {
    rt: &'a R,
    alloc: Global,
    folder: CrashFolder,
    // What is made beside the places of a plan, the certificate first.
    files: Vec<StagedFile>,
    book: PlaceBook,
}

impl<'a, R: Files<File = File> + Abort> CrashStore<'a, R> {
    fn new(rt: &'a R, alloc: Global, folder: CrashFolder) -> CrashStore<'a, R> {
        CrashStore {
            rt,
            alloc,
            folder,
            files: Vec::new(alloc),
            book: PlaceBook::new(alloc),
        }
    }

    // Makes an empty file beside a place.
    fn stage(&mut self, role: Role, place: &str) -> Result<(), FileFault>
        ensures { self.new.book ≡ self.old.book }
    {
        let file = staged(self.rt, self.alloc, role, place);
        self.folder.add(file.path.as_str(), b"")?;
        self.files.push(file)?;
        Ok(())
    }

    // The same for the two places of a plan.
    fn stage_both(&mut self, tx: &str, cert: &str) -> Result<(), FileFault>
        ensures { self.new.book ≡ self.old.book }
    {
        if tx == cert {
            return Err(FileFault::EqualPaths);
        }
        self.stage(Role::Certificate, cert)?;
        self.stage(Role::Transmission, tx)
    }

    // Removes what is made and not put.
    fn clear(&mut self)
        ensures same { placed_by self.new.book ≡ placed_by self.old.book }
        ensures none_left { names_made self.new.book ≡ None }
    {
        remove_made(&mut self.folder, self.files.as_slice());
        self.files.clear();
        self.book.made = None;
    }
}

impl<'a, R: Files<File = File> + Abort> OutputStore for CrashStore<'a, R> {
    type Output = GrowingSink;

    ghost is_known = { Unit {0} };

    ghost placed = { λ store. placed_by store.book };

    ghost made_for = { λ store. names_made store.book };

    fn make(&mut self, tx: &str, cert: &str) -> Result<Outputs<GrowingSink>, FileFault> {
        self.book.make(tx, cert).expect(self.rt, "memory");
        match self.stage_both(tx, cert) {
            Ok(()) => Ok(Outputs {
                tx: GrowingSink::new(self.alloc),
                cert: GrowingSink::new(self.alloc),
            }),
            Err(fault) => {
                let noted = self.book.note(tx, cert, Err(fault));
                noted.expect(self.rt, "memory");
                Err(fault)
            }
        }
    }

    fn put(&mut self, tx: &str, cert: &str, outputs: Outputs<GrowingSink>) -> Result<(), FileFault>
        ensures placed { Unit {0} → names_made self.old.book ≡ Some (tx.now, cert.now) → OnOk result
            (placed_by self.new.book ≡
            placed_by self.old.book ++ placed_plan tx.now cert.now (kept_by outputs.tx, kept_by outputs.cert) ∷ []) }
        ensures failed { Unit {0} → IfErr result (λ fault. placed_by self.new.book ≡
            placed_by self.old.book ++ failed_plan tx.now cert.now fault ∷ []) }
        ensures none_left { Unit {0} → names_made self.old.book ≡ Some (tx.now, cert.now) →
            names_made self.new.book ≡ None }
    {
        let sent = PlanOutputs {
            tx: outputs.tx.into_bytes(),
            cert: outputs.cert.into_bytes(),
        };
        let (first, second) = (sent.cert.as_slice(), sent.tx.as_slice());
        let done = put_both(&mut self.folder, self.files.as_slice(), first, second);
        self.clear();
        match done {
            Ok(()) => {
                let noted = self.book.note(tx, cert, Ok(sent));
                noted.expect(self.rt, "memory");
                Ok(())
            }
            Err(fault) => {
                let noted = self.book.note(tx, cert, Err(fault));
                noted.expect(self.rt, "memory");
                Err(fault)
            }
        }
    }

    fn leave<'n>(&mut self, _tx: &'n str, _cert: &'n str) {
        self.clear();
    }
}

// What stands at the place of a certificate and at that of its transmission.
type Pair<'a> = (Option<&'a [u8]>, Option<&'a [u8]>);

const OLD: Pair<'static> = (Some(b"old certificate"), Some(b"old transmission"));

const HALF: Pair<'static> = (Some(b"new certificate"), Some(b"old transmission"));

const NEW: Pair<'static> = (Some(b"new certificate"), Some(b"new transmission"));

// What a crash leaves at the two places, if so many of the changes are on the disk.
fn pair_after(folder: &CrashFolder, changes: usize) -> Pair<'_> {
    let (first, _) = folder
        .changes
        .as_slice()
        .split_at(changes.min(folder.changes.len()));
    (
        bytes_after(None, first, "cert"),
        bytes_after(None, first, "tx"),
    )
}

// What a crash leaves at the places, at any moment since so many changes were on the disk, is one of these pairs.
fn expect_pairs(rt: &impl Abort, folder: &CrashFolder, since: usize, pairs: &[Pair<'_>]) {
    for changes in since..=folder.changes.len() {
        assert!(rt; (&*pairs).contains(&pair_after(folder, changes)));
    }
}

// A folder that serves so many calls, and then refuses so many.
fn failing(alloc: Global, serves: u64, refuses: u64) -> CrashFolder {
    let mut folder = CrashFolder::new(alloc);
    folder.serves = serves;
    folder.refuses = refuses;
    folder
}

// How putting two files ended, the folder, and how many changes were on the disk before.
#[derive(Drop)]
struct Put {
    done: Result<(), FileFault>,
    folder: CrashFolder,
    begun: usize,
}

// Puts a new certificate and a new transmission at their places, where old ones stand.
fn put_new<R: Files<File = File> + Abort>(
    rt: &R,
    alloc: Global,
    mut folder: CrashFolder,
) -> Result<Put, Fail> {
    folder.add("cert", b"old certificate")?;
    folder.add("tx", b"old transmission")?;
    let begun = folder.changes.len();
    let files = [
        staged(rt, alloc, Role::Certificate, "cert"),
        staged(rt, alloc, Role::Transmission, "tx"),
    ];
    let done = put_both(&mut folder, &files, b"new certificate", b"new transmission");
    Ok(Put {
        done,
        folder,
        begun,
    })
}

// Whether a file stands at a path.
fn stands(folder: &CrashFolder, path: &str) -> bool {
    bytes_after(None, folder.changes.as_slice(), path).is_some()
}

// Whether an older file has its second name yet.
fn keeps_one(folder: &CrashFolder) -> bool {
    stands(folder, "cert.old") || stands(folder, "tx.old")
}

// A crash at any moment leaves the certificate new before the transmission. If all is put no crash takes it away, and if one call fails
// both old files are back.
fn expect_put(rt: &impl Abort, put: &Put, is_once: bool) {
    let Put { folder, begun, .. } = put;
    expect_pairs(rt, folder, *begun, &[OLD, HALF, NEW]);
    match put.done {
        Ok(()) => expect_pairs(rt, folder, folder.settled, &[NEW]),
        Err(fault) => {
            assert!(rt; folder.noted_fault == Some(fault));
            if is_once {
                expect_pairs(rt, folder, folder.settled, &[OLD]);
                assert!(rt; !keeps_one(folder));
            }
        }
    }
}

// Linking, renaming and bringing its name to the disk of each file are six calls, and removing the second names two.
#[test]
fn files_are_put_whichever_call_fails(rt: HostRuntime) -> Result<(), Fail> {
    let alloc = rt.alloc();
    for serves in 0..9 {
        for refuses in [1, 2, u64::MAX] {
            let put = put_new(&rt, alloc, failing(alloc, serves, refuses))?;
            same!(rt; put.done.is_ok(), serves >= 6);
            expect_put(&rt, &put, refuses == 1);
            if serves >= 6 {
                same!(rt; keeps_one(&put.folder), serves < 8);
            }
        }
    }
    Ok(())
}

// What the second run may take.
const TAKEN: [&str; 6] = ["cert", "tx", "cert.new", "cert.old", "tx.old", "other"];

// The second run takes this name after so many steps, and gives it back after so many more.
fn steps_with(alloc: Global, name: &str, before: u64, keeps: u64) -> Result<Vec<OtherStep>, Fail> {
    let mut steps = Vec::new(alloc);
    steps.push(OtherStep::Remove(String::from_str(alloc, name)?))?;
    for _ in 0..keeps {
        steps.push(OtherStep::Remove(String::from_str(alloc, "none")?))?;
    }
    steps.push(OtherStep::Take(String::from_str(alloc, name)?))?;
    for _ in 0..before {
        steps.push(OtherStep::Remove(String::from_str(alloc, "none")?))?;
    }
    Ok(steps)
}

// The second run takes a name before one of the calls, and gives it back before a later one, or never.
#[test]
fn files_are_put_beside_a_second_run(rt: HostRuntime) -> Result<(), Fail> {
    let alloc = rt.alloc();
    for name in TAKEN {
        for (before, keeps) in [
            (0, 0),
            (0, 1),
            (0, 9),
            (2, 1),
            (3, 0),
            (3, 9),
            (5, 9),
            (6, 9),
        ] {
            let mut folder = CrashFolder::new(alloc);
            folder.steps = steps_with(alloc, name, before, keeps)?;
            let put = put_new(&rt, alloc, folder)?;
            expect_put(&rt, &put, keeps == 0);
            if name == "other" {
                same!(rt; put.done.is_ok(), true);
            }
        }
    }
    Ok(())
}

// How an open round ends over a folder in memory, its answers, and the folder.
#[derive(Drop)]
struct Round {
    is_ended: bool,
    answers: MemorySink<200>,
    folder: CrashFolder,
}

const FIRST: &[u8] = b"add,5,tone0,\nplan,tx,cert\n";

const BOTH: &[u8] = b"add,5,tone0,\nplan,tx,cert\nadd,13,tone0,\nplan,tx,cert\n";

fn open_round<R: Files<File = File> + Abort>(
    rt: &R,
    alloc: Global,
    lines: &[u8],
    serves: u64,
    refuses: u64,
) -> Round {
    let mut settings = PlanSettings {
        store: CrashStore::new(rt, alloc, failing(alloc, serves, refuses)),
        on_limit: OnLimit::Fewest,
    };
    let mut input = MemorySource::new(lines, 7, u64::MAX);
    let mut answers = MemorySink::<200>::new(5, 200);
    let done = run_open(alloc, &mut settings, &mut input, &mut answers);
    Round {
        is_ended: done.is_ok(),
        answers,
        folder: settings.store.folder,
    }
}

// What stands at the places at last.
fn last_pair(round: &Round) -> Pair<'_> {
    pair_after(&round.folder, round.folder.changes.len())
}

// A plan takes ten calls, of which the last four remove what is left beside its places. Whichever call of the second plan fails, its
// answer tells whether its files are in their places or those of the first plan, and no crash leaves a transmission without its
// certificate.
#[test]
fn plans_are_put_whichever_call_fails(rt: HostRuntime) -> Result<(), Fail> {
    let alloc = rt.alloc();
    let first = open_round(&rt, alloc, FIRST, u64::MAX, 0);
    let second = open_round(&rt, alloc, BOTH, u64::MAX, 0);
    let (old, new) = (last_pair(&first), last_pair(&second));
    assert!(rt; old.0.is_some() && old.1.is_some() && old != new);
    let pairs = [(None, None), (old.0, None), old, (new.0, old.1), new];
    for fails in 0..10 {
        for refuses in [1, u64::MAX] {
            let cut = open_round(&rt, alloc, BOTH, 10 + fails, refuses);
            assert!(rt; cut.is_ended);
            expect_pairs(&rt, &cut.folder, 0, &pairs);
            let told = if fails < 6 {
                "ok 1\nbatches 1\nok 2\nrefused: cannot write\n"
            } else {
                "ok 1\nbatches 1\nok 2\nbatches 1\n"
            };
            same!(rt; cut.answers.bytes(), told.as_bytes());
            if fails >= 6 {
                assert!(rt; last_pair(&cut) == new);
            } else if refuses == 1 {
                assert!(rt; last_pair(&cut) == old);
                assert!(rt; !keeps_one(&cut.folder) && !stands(&cut.folder, "tx.new"));
            }
        }
    }
    Ok(())
}

// A place that is named twice is refused, and nothing is made.
#[test]
fn equal_places_are_refused(rt: HostRuntime) {
    let cut = open_round(&rt, rt.alloc(), b"add,5,tone0,\nplan,tx,tx\n", u64::MAX, 0);
    same!(rt; cut.answers.bytes(), "ok 1\nrefused: the same file is named twice\n".as_bytes());
    same!(rt; cut.folder.changes.len(), 0);
}

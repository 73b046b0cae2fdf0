//! The rows of several clerks. Each asks a thousand questions about each of its product codes, in a thread of its own.
//! Then the repository is settled.
ghost use Rattle.std.specs.Prelude.{◌≡◌, ◌≤◌, ℕ, length, vec_len};
ghost use Rattle.nmvs_directory.specs.Directory.{directory_book};
ghost use Rattle.nmvs_desk.specs.Opening.{table_of};
ghost use Rattle.nmvs_desk.specs.Placing.{IsPartOf};
ghost use Rattle.nmvs_desk.specs.Settlement.{row};

use crate::rows::NEW_YEAR;
use nmvs_desk::{Clerk, Keepers, MOST_CLERKS, OpenFault, Repository, Settled, settle};
use nmvs_directory::{Directory, Naming, Window};
use nmvs_history::Histories;
use nmvs_identifier::{Batch, Expiry, Moment, Name, Pack, ProductCode, Serial};
use nmvs_record::{export, import};
use nmvs_rules::{Actor, PackQuestion, Put, Question, Role};
use nmvs_shard::{HashKey, Shard, Shards};
use nmvs_stream::Device;
use std::alloc::Global;
use std::marker::Brand;
use std::process::Abort;
use std::rt::HostRuntime;
use std::sync::Wait;
use std::thread;
use std::thread::Threads;

/// A product code of shard 0 of two.
const P: &str = "09506000134352";

/// A product code of shard 1 of two.
const Q: &str = "04012345678901";

fn name(rt: &impl Abort, text: &str) -> Name {
    Name::read(text).expect(rt, "a name")
}

fn put(rt: &impl Abort, user: &str, role: Role, question: Question) -> Put {
    let user = name(rt, user);
    Put {
        moment: Moment::new(NEW_YEAR).expect(rt, "a moment"),
        user,
        actor: Actor {
            role,
            authorisation: user,
            premises: user,
        },
        question,
        tag: None,
    }
}

/// The pack SN1 of a product code.
fn pack(rt: &impl Abort, digits: &str) -> Pack {
    Pack {
        code: ProductCode::read(digits).expect(rt, "a code"),
        serial: Serial::read("SN1").expect(rt, "a serial"),
    }
}

/// The upload of that pack by its holder, and its verification by a pharmacy.
fn questions(rt: &impl Abort, digits: &str) -> (Put, Put) {
    let upload = Question::Upload {
        pack: pack(rt, digits),
        batch: Batch::read("B1").expect(rt, "a batch"),
        expiry: Expiry::read("280200").expect(rt, "a date"),
    };
    let verify = Question::OfPack(PackQuestion::Verify, pack(rt, digits));
    let first = put(rt, "mah1", Role::Holder, upload);
    (first, put(rt, "ph1", Role::Pharmacy, verify))
}

/// The questions of a clerk: the upload of a pack of each of these product codes, and 999 verifications of it.
type Errand<'s> = &'s [(Put, Put)];

/// Asks a thousand questions of each product code.
fn run<'a, J: Naming, H: Histories, R: Wait + Abort>(
    rt: &R,
    repository: &Repository<'a, H>,
    clerk: &mut Clerk<'a, J, H>,
    errand: Errand<'_>,
) {
    for (upload, verify) in errand {
        let asked = clerk.ask(rt, repository, upload, &None);
        assert!(rt; asked.is_ok());
        for _ in 0..999u32 {
            let asked = clerk.ask(rt, repository, verify, &None);
            assert!(rt; asked.is_ok());
        }
    }
}

/// Runs an errand, and returns the clerk.
fn back_from<'a, J: Naming, H: Histories, R: Wait + Abort>(
    rt: &R,
    repository: &Repository<'a, H>,
    mut clerk: Clerk<'a, J, H>,
    errand: Errand<'_>,
) -> Clerk<'a, J, H> {
    run(rt, repository, &mut clerk, errand);
    clerk
}

/// Lets each clerk run an errand in a thread of its own, and returns the clerks.
fn in_threads<
    'a,
    J: Naming + Send + Sync,
    H: Histories + Send + Sync,
    R: Threads + Wait + Abort + Sync,
>(
    rt: &R,
    repository: &Repository<'a, H>,
    clerks: Vec<Clerk<'a, J, H>, &'a Global>,
    errands: &[Errand<'_>],
) -> Vec<Clerk<'a, J, H>, &'a Global> {
    let alloc = *clerks.allocator();
    thread::scope(thread::scope_env(), rt, |scope| {
        let mut workers = Vec::new(*alloc);
        let mut back = Vec::new(alloc);
        for (clerk, errand) in clerks.into_iter().zip(errands) {
            let spawned = scope.spawn(move || back_from(rt, repository, clerk, *errand));
            let worker = spawned.ok().expect(rt, "a thread");
            workers.push(worker).expect(rt, "memory");
        }
        for worker in workers {
            back.push(worker.join(rt)).expect(rt, "memory");
        }
        back
    })
}

/// Opens a repository of shards without entries, lets its clerks run these errands, and settles it.
fn settled_after<
    'a,
    J: Naming + Send + Sync,
    H: Histories + Send + Sync,
    R: Threads + Wait + Abort + Sync,
>(
    rt: &R,
    errands: &[Errand<'_>],
    windows: &mut Vec<Window<J, &'a Global>, &'a Global>,
    shards: Vec<Shard<&'a Global>, &'a Global>,
    keepers: Keepers<'a>,
) -> Settled<'a>
    requires tables { (i : ℕ) → table_of keepers i ≡ H.tables i }
    requires named { (H.shards ≡ length keepers) × (H.clerks ≡ vec_len windows.old)
        × ((i : ℕ) → H.opening i ≡ row shards.items i) }
    requires many { vec_len shards ≡ length keepers }
    requires placed { (i : ℕ) → IsPartOf (length keepers) i (row shards.items i) }
    requires few { vec_len windows.old ≤ MOST_CLERKS }
{
    let alloc = *windows.allocator();
    let opened = Repository::<H, _>::open(alloc, keepers, shards, windows);
    let (repository, clerks) = opened.expect(rt, "memory");
    let clerks = in_threads(rt, &repository, clerks, errands);
    assert!(rt; clerks.len() == repository.clerks());
    settle(alloc, repository, clerks).ok().expect(rt, "memory")
}

fn in_directory<J: Naming + Send + Sync, R: Threads + Wait + Abort + Sync>(
    rt: &R,
    alloc: &Global,
    count: usize,
    errands: &[Errand<'_>],
    directory: Directory,
) -> Vec<u8>
    requires name { directory_book directory ≡ J.book }
    requires windows { (1 ≤ length errands.now) × (length errands.now ≤ MOST_CLERKS) }
{
    let made = directory.open::<J, _, _>(rt, alloc, errands.len());
    let (registrar, mut windows) = made.expect(rt, "a directory");
    let keepers = Keepers::new(alloc, count).expect(rt, "keepers");
    let shards = Shards::new(alloc, count, HashKey::of(1)).expect(rt, "memory");
    let shards = shards.into_shards();
    let settled = settled_after::<J, Brand, _>(rt, errands, &mut windows, shards, keepers);
    registrar.close();
    exported(rt, &settled)
}

/// The exports of settled shards, one after the other.
fn exported(rt: &impl Abort, settled: &Settled<'_>) -> Vec<u8> {
    let alloc = **settled.shards.allocator();
    let mut bytes = Vec::new(alloc);
    for shard in &settled.shards {
        let mut sink = Device::new(&mut bytes);
        assert!(rt; export(alloc, shard, &mut sink).is_ok());
    }
    bytes
}

/// The exports of a repository of this many shards after clerks have run these errands.
fn exported_after<R: Threads + Wait + Abort + Sync>(
    rt: &R,
    alloc: Global,
    count: usize,
    errands: &[Errand<'_>],
) -> Vec<u8> {
    assert!(rt; 1 <= errands.len() && errands.len() <= MOST_CLERKS);
    in_directory::<Brand, _>(rt, &alloc, count, errands, Directory::new())
}

/// Whether an export is read into two shards of a thousand entries each.
fn is_imported(rt: &impl Abort, alloc: Global, bytes: &[u8]) -> bool {
    let shards = Shards::new(alloc, 2, HashKey::of(1)).expect(rt, "memory");
    let imported = import(alloc, shards, &mut Device::new(bytes), 10_000);
    let shards = imported.ok().expect(rt, "an export").into_shards();
    let mut lengths = [0; 2];
    for (length, shard) in lengths.iter_mut().zip(&shards) {
        *length = shard.len();
    }
    shards.len() == 2 && lengths == [1_000, 1_000]
}

/// The first clerk asks of one product code and the second of another, or one clerk of both.
#[test]
fn two_clerks_are_answered_as_one_alone(rt: HostRuntime) {
    let alloc = rt.alloc();
    let (p, q) = (questions(&rt, P), questions(&rt, Q));
    let apart = exported_after(&rt, alloc, 2, &[&[p], &[q]]);
    let alone = exported_after(&rt, alloc, 1, &[&[p, q]]);
    assert!(rt; apart == alone && is_imported(&rt, alloc, &apart));
}

#[test]
fn a_repository_has_one_to_eight_shards(rt: HostRuntime) {
    let alloc = rt.alloc();
    for &(shards, fault) in &[
        (0, Some(OpenFault::Count)),
        (1, None),
        (8, None),
        (9, Some(OpenFault::Count)),
    ] {
        assert!(&rt; Keepers::new(&alloc, shards).err() == fault, "{shards}");
    }
}

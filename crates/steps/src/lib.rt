// The tests of steps 3 and 5 to 11 of an access, but for step 10, which is the register table's (01, "Order in one access").
#![tactic(auto)]

ghost use Rattle.std.specs.Prelude.{◌≡◌};
ghost use Rattle.rules.specs.Steps.{odd_word, keys_of, judged, watches, public_page, guarded, forbidden_by, forbidden};

use rules::{Access, Core, Entry, Fault, Fetch, Kind, Operation, Width};

// Steps 3 and 5 --------------------------------------------------------------------------------------------------------

// "3. Unpaged odd word (3)." and "5. Paged odd word (4)."
#[tactic(auto, unfolding(rules::specs::Steps::odd_word))]
pub fn odd_word(width: u64, a: u16) -> bool
    ensures { result ≡ odd_word width a }
{
    width == Width::Word as u64 && a % 2 == 1
}

// Steps 6 to 9 ---------------------------------------------------------------------------------------------------------

// "7. Residency (5). 8. Write key for operations 1-3 (6). 9. Privacy (7)."; `watched` says that privacy is asked.
#[tactic(auto, unfolding(rules::specs::Steps::keys_of, rules::specs::Choice::pick))]
pub fn keys_of(op: u64, watched: bool, w: u16) -> Result<u16, Fault>
    ensures { result ≡ keys_of op watched w }
{
    if !pages::resident_bit(w) {
        return Err(Fault::NotResident);
    }
    if op != Operation::Dati as u64 && !pages::write_bit(w) {
        return Err(Fault::NotWritable);
    }
    if watched && !pages::public_bit(w) {
        return Err(Fault::NotPublic);
    }
    Ok(pages::low9(w))
}

// "6. Walk (9).", where "10 takes 9's place" (T-01), and the keys. "Exec page 0: .. every key passes."
#[tactic(auto, unfolding(rules::specs::Steps::judged))]
pub fn judged(op: u64, watched: bool, e: Entry) -> Result<u16, Fault>
    ensures { result ≡ judged op watched e }
{
    match e {
        Entry::OffMap => Err(Fault::NoMapWord),
        Entry::ExecZero(page) => Ok(page),
        Entry::Mapped(w) => keys_of(op, watched, w),
    }
}

// Whether step 9 asks: "Privacy: not a fetch, flag set, page private."
#[tactic(auto, unfolding(rules::specs::Steps::watches))]
pub fn watches(f: Fetch, q: Access) -> bool
    ensures { result ≡ watches f q }
{
    !fetched::is_fetch(q) && f.public
}

// Step 11 --------------------------------------------------------------------------------------------------------------

// The page's public bit: "exec page 0 counts as private".
#[tactic(auto, unfolding(rules::specs::Steps::public_page))]
pub fn public_page(e: Entry) -> bool
    ensures { result ≡ public_page e }
{
    matches!(e, Entry::Mapped(w) if pages::public_bit(w))
}

// A page that is judged as private: exec page 0 "is never judged for privacy or entry point".
#[tactic(auto, unfolding(rules::specs::Steps::guarded))]
pub fn guarded(e: Entry) -> bool
    ensures { result ≡ guarded e }
{
    matches!(e, Entry::Mapped(w) if !pages::public_bit(w))
}

// A user's privileged word, and any but the entry point where the fetch goes from public to private.
#[tactic(auto, unfolding(rules::specs::Steps::forbidden_by))]
pub fn forbidden_by(k: Kind, user: bool, entering: bool) -> bool
    ensures { result ≡ forbidden_by k user entering }
{
    match k {
        Kind::Privileged => user || entering,
        Kind::EntryPoint => false,
        _ => entering,
    }
}

// "Word rule, paged fetches: user HALT 0, WAIT 1, RESET 5; or flag set, page private, word not 000400o."
#[tactic(auto, unfolding(rules::specs::Steps::forbidden))]
pub fn forbidden(c: Core, e: Entry, w: u16) -> bool
    ensures { result ≡ forbidden c e w }
{
    let entering = c.fetch.public && guarded(e);
    forbidden_by(kinds::kind_of(w), c.ktcs.um, entering)
}

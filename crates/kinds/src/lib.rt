// What a fetched word is sorted into (01, "Order in one access").
#![tactic(auto)]

ghost use Rattle.std.specs.Prelude.{◌≡◌};
ghost use Rattle.rules.specs.Fetched.{kind_of};

use rules::Kind;

// "JSR 004000-004777o, RTS 000200-000207o, RTI 000002o, TRAP 104400-104777o"; the privileged HALT 0, WAIT 1, RESET 5; the entry point 000400o.
#[tactic(auto, unfolding(rules::specs::Fetched::kind_of, rules::specs::Fetched::between, rules::specs::Choice::pick))]
pub fn kind_of(word: u16) -> Kind
    ensures { result ≡ kind_of word }
{
    match word {
        0o004000..=0o004777 => Kind::Jsr,
        0o000200..=0o000207 => Kind::Rts,
        0o000002 => Kind::Rti,
        0o104400..=0o104777 => Kind::Trap,
        0 | 1 | 5 => Kind::Privileged,
        0o000400 => Kind::EntryPoint,
        _ => Kind::Other,
    }
}

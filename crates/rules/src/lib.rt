// The types that everything speaks of: the unit's state, its calls and answers, and what the steps of an access hand on.
// There is no code here. What these types mean is said in specs/; docs/RULES.md leads there from each sentence of document 01 that rules
// something.
#![tactic(auto)]

// The unit and its calls -----------------------------------------------------------------------------------------------

// What FCN asks for, in the order of its values. The field is a number, since a KTCS with any number in it is one.
#[derive(Clone, Copy)]
pub enum Paging {
    Unpaged,
    DestinationOnly,
    Normal,
    StartUser,
}

// KTCS by its named fields. The packing into 16 bits is `packed` of specs/Status.antt.
#[derive(Clone, Copy)]
pub struct Ktcs {
    // FCN, bits 1-0: 0 unpaged, 1 destination only, 2 normal paging, 3 start user (`Paging`).
    pub fcn: u16,
    // SS, bit 2: source state.
    pub ss: bool,
    // DS, bit 3: destination state.
    pub ds: bool,
    // UM, bit 4: user mode.
    pub um: bool,
    // IU, bit 5: interrupted user.
    pub iu: bool,
    // RV, bit 11: residency violation.
    pub rv: bool,
    // PV, bit 12: privacy violation.
    pub pv: bool,
    // WV, bit 13: write violation.
    pub wv: bool,
    // AV, bit 14: address violation.
    pub av: bool,
    // IV, bit 15: instruction violation.
    pub iv: bool,
}

// The fetch memory: the last two fetched words, the counts since, each of which stops at 2, and the public flag.
#[derive(Clone, Copy)]
pub struct Fetch {
    pub newer: u16,
    pub older: u16,
    pub datos: u16,
    pub accesses: u16,
    pub public: bool,
}

// What the unit is waiting for.
#[derive(Clone, Copy)]
pub enum Wait {
    Nothing,
    // The first SERVICE DATO, which brings the processor's status.
    StatusDue,
    // The second SERVICE DATO, which brings its program counter.
    ProgramCounterDue,
    // The second START read, which takes KTPS.
    SecondReadDue,
}

// How many registers with no side effect there are: KTIC, KTSP, KTPC, KTPS, KTAD and KTDT, in the order of their addresses.
pub const KEPT: usize = 6;

// All of the unit but the map registers and the cells. The unit with no cells has this, the map registers, and a size for its addresses.
#[derive(Clone, Copy)]
pub struct Core {
    pub ktcs: Ktcs,
    pub kept: [u16; KEPT],
    pub wait: Wait,
    pub fetch: Fetch,
}

// The two map registers, which stand apart because a store into one also empties the cells.
#[derive(Clone, Copy)]
pub struct Maps {
    pub ktum: u16,
    pub ktem: u16,
}

// A cell: the tag of the page that it holds, or 0 where it is empty ("0 means empty", and in the words of a host too), and its scratchpad word.
#[derive(Clone, Copy)]
pub struct Cell {
    pub tag: u16,
    pub word: u16,
}

// How many cells a unit is made with: 8 or 24, and no other number. How many each is, is said by `count_of` of specs/Unit.antt.
#[derive(Clone, Copy)]
pub enum Size {
    Eight,
    TwentyFour,
}

// How many cells there is room for, in the unit itself and not on a heap: as many as the larger unit has.
pub const ROOM: usize = 24;

// The cells and the replacement counter, which counts from 10 octal. A unit has the first so many of the list as its size says; those
// past them are not there: no answer, no memory and no cell that is there depends on them.
#[derive(Clone, Copy)]
pub struct Cells {
    pub size: Size,
    pub list: [Cell; ROOM],
    pub counter: u16,
}

#[derive(Clone, Copy)]
pub struct Unit {
    pub core: Core,
    pub maps: Maps,
    pub cells: Cells,
}

// "Operations: 0 DATI, 1 DATIP, 2 DATO, 3 DATOB": in the order of their numbers.
#[derive(Clone, Copy)]
pub enum Operation {
    Dati,
    Datip,
    Dato,
    Datob,
}

// "States: 0 FETCH, 1 SOURCE, 2 DESTINATION, 3 EXECUTE, 4 SERVICE": in the order of their numbers.
#[derive(Clone, Copy)]
pub enum State {
    Fetch,
    Source,
    Destination,
    Execute,
    Service,
}

// "Width: 0 word, 1 byte": in the order of their numbers.
#[derive(Clone, Copy)]
pub enum Width {
    Word,
    Byte,
}

// One access as the processor asks for it. Operation, state and width are numbers of any size: each is answered, also where it is none of those
// above.
#[derive(Clone, Copy)]
pub struct Access {
    pub op: u64,
    pub state: u64,
    pub width: u64,
    pub addr: u16,
    pub datum: u16,
}

#[derive(Clone, Copy)]
pub enum Call {
    Access(Access),
    Interrupt,
    // The vector, a number of any size.
    Trap(u64),
    Init,
}

// The trap vectors, 4, 10, 14, 20, 24, 30 and 34 octal: a constant array that is searched, as that of the registers below is.
pub const VECTORS: [usize; 7] = [0o4, 0o10, 0o14, 0o20, 0o24, 0o30, 0o34];

// Registers ------------------------------------------------------------------------------------------------------------

// The addresses of KTWN, KTMR, KTCS, KTIC to KTDT, KTUM, KTEM, and of the scratchpad words 10 to 37 octal. A unit with fewer cells has the first
// so many of these.
pub const REGISTERS: [usize; 35] = [
    0o777572, 0o777574, 0o777576, 0o777600, 0o777602, 0o777604, 0o777606, 0o777610, 0o777612,
    0o777614, 0o777616, 0o777620, 0o777622, 0o777624, 0o777626, 0o777630, 0o777632, 0o777634,
    0o777636, 0o777640, 0o777642, 0o777644, 0o777646, 0o777650, 0o777652, 0o777654, 0o777656,
    0o777660, 0o777662, 0o777664, 0o777666, 0o777670, 0o777672, 0o777674, 0o777676,
];

// A register that the core or the map registers answer for: KTCS and those at 777600 to 777616 octal.
#[derive(Clone, Copy)]
pub enum Operating {
    Ktcs,
    // One of KTIC, KTSP, KTPC, KTPS, KTAD and KTDT, counted from KTIC.
    Kept(usize),
    Ktum,
    Ktem,
}

// A register that the cells answer for.
#[derive(Clone, Copy)]
pub enum Associative {
    Ktmr,
    // A scratchpad word, counted from 777620 octal.
    Pad(usize),
}

// A register that can be read and stored into. KTWN is none: what goes there goes on through the window.
#[derive(Clone, Copy)]
pub enum Register {
    Operating(Operating),
    Associative(Associative),
}

// What can be read and stored into: memory is as much a target as a register is, so this is no `Option`.
#[derive(Clone, Copy)]
pub enum Target {
    Memory,
    In(Register),
}

// What step 10 finds at a physical address.
#[derive(Clone, Copy)]
pub enum Place {
    There(Target),
    // 777572 and 777573 octal, from which a paged access goes on.
    Window,
    // At or beyond the end of memory, and no register.
    Nowhere,
}

// The part of a word that a store covers.
#[derive(Clone, Copy)]
pub enum Part {
    Whole,
    Low,
    High,
}

// From address to entry ------------------------------------------------------------------------------------------------

// Where the words stand that a walk read.
#[derive(Clone, Copy)]
pub enum Reads {
    // The map word.
    Direct(usize),
    // The pointer, and the map word that it leads to.
    Pointed(usize, usize),
}

// What a walk of the maps comes to, where no map word or pointer stands at or beyond the end of memory: the map word, and where the words
// stand that were read for it.
#[derive(Clone, Copy)]
pub struct Walked {
    pub word: u16,
    pub reads: Reads,
}

// What an access gets for its page.
#[derive(Clone, Copy)]
pub enum Entry {
    // The walk ran off memory.
    OffMap,
    // Exec page 0: its physical page.
    ExecZero(u16),
    // A map word.
    Mapped(u16),
}

// What a look-up gives: the entry, and the cells as it leaves them.
#[derive(Clone, Copy)]
pub struct Looked {
    pub entry: Entry,
    pub cells: Cells,
}

// Order in one access --------------------------------------------------------------------------------------------------

// What a fetched word is sorted into.
#[derive(Clone, Copy)]
pub enum Kind {
    Jsr,
    Rts,
    Rti,
    Trap,
    Privileged,
    EntryPoint,
    Other,
}

// What step 2 says of an access.
#[derive(Clone, Copy)]
pub enum Due {
    // Nothing is due: the steps go on.
    Steps,
    // Another access is due.
    OutOfTurn,
    StatusStore,
    ProgramCounterStore,
    FirstRead,
    SecondRead,
}

// The step from 5 to 11 at which an access is refused.
#[derive(Clone, Copy)]
pub enum Fault {
    // Step 5.
    OddAddress,
    // Step 6: the walk ran off memory.
    NoMapWord,
    // Step 7.
    NotResident,
    // Step 8.
    NotWritable,
    // Step 9.
    NotPublic,
    // Step 10: a time-out at the target.
    NoTarget,
    // Step 11, with the fetched word and its physical address.
    Forbidden(u16, usize),
}

// What comes back ------------------------------------------------------------------------------------------------------

#[derive(Clone, Copy)]
pub enum Answer {
    // An access is done: the word read, else 0, and the physical address.
    Done(u16, usize),
    // A sequence access, an interrupt, a trap or INIT is done: the word given, else 0.
    Taken(u16),
    // Step 1.
    Misshapen,
    // Step 2.
    NotDue,
    // Step 3.
    UnpagedOdd,
    // Steps 5 to 11.
    Fault(Fault),
}

// What comes back of an answer: its number, by which a host tells the answers apart, its data and its physical address, or none.
#[derive(Clone, Copy)]
pub struct Returned {
    pub number: u16,
    pub datum: u16,
    pub physical: Option<usize>,
}

// What a call is to do once its steps have ruled. Nothing else changes memory or the map registers; the cells change by this and by
// look-ups.
#[derive(Clone, Copy)]
pub enum Effect {
    Keep,
    // The cell of the page with this tag empties.
    Forget(u16),
    // The map registers take these values, all cells empty and the counter goes to 10 octal.
    Reload(Maps),
    // A word into memory, at an even address.
    StoreWord(usize, u16),
    // The low 8 bits of a word into one byte of memory.
    StoreByte(usize, u16),
    // A part of a word into the scratchpad word of a cell.
    StorePad(usize, Part, u16),
}

// What the steps of a call decide: the answer, the unit's new core, and what is to be done.
#[derive(Clone, Copy)]
pub struct Outcome {
    pub answer: Answer,
    pub core: Core,
    pub effect: Effect,
}

// What a call decided, and the cells as its look-ups left them.
#[derive(Clone, Copy)]
pub struct Ran {
    pub outcome: Outcome,
    pub cells: Cells,
}

// An access under way: what was asked, and the unit as its steps see it. Of the cells they see how many there are, which says where registers
// stand.
#[derive(Clone, Copy)]
pub struct Job {
    pub q: Access,
    pub core: Core,
    pub maps: Maps,
    pub size: Size,
}

// The answer to a call, and the unit after it.
#[derive(Clone, Copy)]
pub struct Reply {
    pub answer: Answer,
    pub unit: Unit,
}

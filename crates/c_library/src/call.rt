//! The calls of `svdpi.h`, and how they are named.
ghost use Rattle.std.specs.Prelude.{◌≡◌};
ghost use Rattle.c_library.specs.Names as spec;

/// What a query of an open array asks of a dimension (IEEE 1800-2017, H.12.2).
#[derive(Clone, Copy, Debug, PartialEq, Eq)]
pub enum Query {
    /// The left bound.
    Left,
    /// The right bound.
    Right,
    /// The lower bound.
    Low,
    /// The higher bound.
    High,
    /// The number of elements.
    Size,
    /// 1 where the left bound isn't the lower one, else -1.
    Increment,
}

/// How many states a bit has.
#[derive(Clone, Copy, Debug, PartialEq, Eq)]
pub enum States {
    /// 0 and 1, as `bit`.
    Two,
    /// 0, 1, x and z, as `logic`.
    Four,
}

/// How many indices a call takes.
#[derive(Clone, Copy, Debug, PartialEq, Eq)]
pub enum Indices {
    /// One to three, where the declaration has `...`.
    Open,
    /// One.
    One,
    /// Two.
    Two,
    /// Three.
    Three,
}

/// A call of `svdpi.h` (IEEE 1800-2017, Annex I).
#[derive(Clone, Copy, Debug, PartialEq, Eq)]
pub enum Call {
    /// A query of a dimension of an open array.
    Query(Query),
    /// How many unpacked dimensions an open array has.
    Dimensions,
    /// The first cell of an open array.
    ArrayPointer,
    /// The bytes of an open array.
    SizeOfArray,
    /// The first cell of an element.
    ElementPointer(Indices),
    /// The bit that an element is.
    GetElement(States, Indices),
    /// Stores the bit that an element is.
    PutElement(States, Indices),
    /// Copies the words of an element.
    GetWords(States, Indices),
    /// Copies words to an element.
    PutWords(States, Indices),
    /// A bit of a vector.
    GetBit(States),
    /// Stores a bit of a vector.
    PutBit(States),
    /// Copies a part of a vector.
    GetPart(States),
    /// Stores a part of a vector.
    PutPart(States),
    /// The current scope.
    GetScope,
    /// Makes a scope the current one.
    SetScope,
    /// The full name of a scope.
    NameFromScope,
    /// The scope of a full name.
    ScopeFromName,
    /// Keeps a value for a scope and a key.
    PutUserData,
    /// The value that is kept for a scope and a key.
    GetUserData,
    /// The file and the line of the import's call.
    CallerInfo,
    /// Whether the import is disabled.
    IsDisabledState,
    /// Acknowledges that the import is disabled.
    AckDisabledState,
}

/// All calls.
pub const CALLS: [Call; 62] = [
    Call::Query(Query::Left),
    Call::Query(Query::Right),
    Call::Query(Query::Low),
    Call::Query(Query::High),
    Call::Query(Query::Size),
    Call::Query(Query::Increment),
    Call::Dimensions,
    Call::ArrayPointer,
    Call::SizeOfArray,
    Call::ElementPointer(Indices::Open),
    Call::ElementPointer(Indices::One),
    Call::ElementPointer(Indices::Two),
    Call::ElementPointer(Indices::Three),
    Call::GetElement(States::Two, Indices::Open),
    Call::GetElement(States::Two, Indices::One),
    Call::GetElement(States::Two, Indices::Two),
    Call::GetElement(States::Two, Indices::Three),
    Call::GetElement(States::Four, Indices::Open),
    Call::GetElement(States::Four, Indices::One),
    Call::GetElement(States::Four, Indices::Two),
    Call::GetElement(States::Four, Indices::Three),
    Call::PutElement(States::Two, Indices::Open),
    Call::PutElement(States::Two, Indices::One),
    Call::PutElement(States::Two, Indices::Two),
    Call::PutElement(States::Two, Indices::Three),
    Call::PutElement(States::Four, Indices::Open),
    Call::PutElement(States::Four, Indices::One),
    Call::PutElement(States::Four, Indices::Two),
    Call::PutElement(States::Four, Indices::Three),
    Call::GetWords(States::Two, Indices::Open),
    Call::GetWords(States::Two, Indices::One),
    Call::GetWords(States::Two, Indices::Two),
    Call::GetWords(States::Two, Indices::Three),
    Call::GetWords(States::Four, Indices::Open),
    Call::GetWords(States::Four, Indices::One),
    Call::GetWords(States::Four, Indices::Two),
    Call::GetWords(States::Four, Indices::Three),
    Call::PutWords(States::Two, Indices::Open),
    Call::PutWords(States::Two, Indices::One),
    Call::PutWords(States::Two, Indices::Two),
    Call::PutWords(States::Two, Indices::Three),
    Call::PutWords(States::Four, Indices::Open),
    Call::PutWords(States::Four, Indices::One),
    Call::PutWords(States::Four, Indices::Two),
    Call::PutWords(States::Four, Indices::Three),
    Call::GetBit(States::Two),
    Call::GetBit(States::Four),
    Call::PutBit(States::Two),
    Call::PutBit(States::Four),
    Call::GetPart(States::Two),
    Call::GetPart(States::Four),
    Call::PutPart(States::Two),
    Call::PutPart(States::Four),
    Call::GetScope,
    Call::SetScope,
    Call::NameFromScope,
    Call::ScopeFromName,
    Call::PutUserData,
    Call::GetUserData,
    Call::CallerInfo,
    Call::IsDisabledState,
    Call::AckDisabledState,
];

fn query_name(query: Query) -> &'static [u8]
    ensures { result.now ≡ spec.query_name query }
{
    match query {
        Query::Left => b"svLeft",
        Query::Right => b"svRight",
        Query::Low => b"svLow",
        Query::High => b"svHigh",
        Query::Size => b"svSize",
        Query::Increment => b"svIncrement",
    }
}

fn pointer_name(indices: Indices) -> &'static [u8]
    ensures { result.now ≡ spec.pointer_name indices }
{
    match indices {
        Indices::Open => b"svGetArrElemPtr",
        Indices::One => b"svGetArrElemPtr1",
        Indices::Two => b"svGetArrElemPtr2",
        Indices::Three => b"svGetArrElemPtr3",
    }
}

fn get_name(states: States, indices: Indices) -> &'static [u8]
    ensures { result.now ≡ spec.get_name states indices }
{
    match (states, indices) {
        (States::Two, Indices::Open) => b"svGetBitArrElem",
        (States::Two, Indices::One) => b"svGetBitArrElem1",
        (States::Two, Indices::Two) => b"svGetBitArrElem2",
        (States::Two, Indices::Three) => b"svGetBitArrElem3",
        (States::Four, Indices::Open) => b"svGetLogicArrElem",
        (States::Four, Indices::One) => b"svGetLogicArrElem1",
        (States::Four, Indices::Two) => b"svGetLogicArrElem2",
        (States::Four, Indices::Three) => b"svGetLogicArrElem3",
    }
}

fn put_name(states: States, indices: Indices) -> &'static [u8]
    ensures { result.now ≡ spec.put_name states indices }
{
    match (states, indices) {
        (States::Two, Indices::Open) => b"svPutBitArrElem",
        (States::Two, Indices::One) => b"svPutBitArrElem1",
        (States::Two, Indices::Two) => b"svPutBitArrElem2",
        (States::Two, Indices::Three) => b"svPutBitArrElem3",
        (States::Four, Indices::Open) => b"svPutLogicArrElem",
        (States::Four, Indices::One) => b"svPutLogicArrElem1",
        (States::Four, Indices::Two) => b"svPutLogicArrElem2",
        (States::Four, Indices::Three) => b"svPutLogicArrElem3",
    }
}

fn get_words_name(states: States, indices: Indices) -> &'static [u8]
    ensures { result.now ≡ spec.get_words_name states indices }
{
    match (states, indices) {
        (States::Two, Indices::Open) => b"svGetBitArrElemVecVal",
        (States::Two, Indices::One) => b"svGetBitArrElem1VecVal",
        (States::Two, Indices::Two) => b"svGetBitArrElem2VecVal",
        (States::Two, Indices::Three) => b"svGetBitArrElem3VecVal",
        (States::Four, Indices::Open) => b"svGetLogicArrElemVecVal",
        (States::Four, Indices::One) => b"svGetLogicArrElem1VecVal",
        (States::Four, Indices::Two) => b"svGetLogicArrElem2VecVal",
        (States::Four, Indices::Three) => b"svGetLogicArrElem3VecVal",
    }
}

fn put_words_name(states: States, indices: Indices) -> &'static [u8]
    ensures { result.now ≡ spec.put_words_name states indices }
{
    match (states, indices) {
        (States::Two, Indices::Open) => b"svPutBitArrElemVecVal",
        (States::Two, Indices::One) => b"svPutBitArrElem1VecVal",
        (States::Two, Indices::Two) => b"svPutBitArrElem2VecVal",
        (States::Two, Indices::Three) => b"svPutBitArrElem3VecVal",
        (States::Four, Indices::Open) => b"svPutLogicArrElemVecVal",
        (States::Four, Indices::One) => b"svPutLogicArrElem1VecVal",
        (States::Four, Indices::Two) => b"svPutLogicArrElem2VecVal",
        (States::Four, Indices::Three) => b"svPutLogicArrElem3VecVal",
    }
}

/// The name of a select of this call: the first where it is of two states, else the second.
fn by_states(states: States, two: &'static [u8], four: &'static [u8]) -> &'static [u8]
    ensures { result.now ≡ spec.by_states states two.now four.now }
{
    match states {
        States::Two => two,
        States::Four => four,
    }
}

impl Call {
    /// The name of the call (IEEE 1800-2017, Annex I).
    pub fn name(self) -> &'static [u8]
        ensures { result.now ≡ spec.name self }
    {
        match self {
            Call::Query(query) => query_name(query),
            Call::Dimensions => b"svDimensions",
            Call::ArrayPointer => b"svGetArrayPtr",
            Call::SizeOfArray => b"svSizeOfArray",
            Call::ElementPointer(indices) => pointer_name(indices),
            Call::GetElement(states, indices) => get_name(states, indices),
            Call::PutElement(states, indices) => put_name(states, indices),
            Call::GetWords(states, indices) => get_words_name(states, indices),
            Call::PutWords(states, indices) => put_words_name(states, indices),
            Call::GetBit(states) => by_states(states, b"svGetBitselBit", b"svGetBitselLogic"),
            Call::PutBit(states) => by_states(states, b"svPutBitselBit", b"svPutBitselLogic"),
            Call::GetPart(states) => by_states(states, b"svGetPartselBit", b"svGetPartselLogic"),
            Call::PutPart(states) => by_states(states, b"svPutPartselBit", b"svPutPartselLogic"),
            Call::GetScope => b"svGetScope",
            Call::SetScope => b"svSetScope",
            Call::NameFromScope => b"svGetNameFromScope",
            Call::ScopeFromName => b"svGetScopeFromName",
            Call::PutUserData => b"svPutUserData",
            Call::GetUserData => b"svGetUserData",
            Call::CallerInfo => b"svGetCallerInfo",
            Call::IsDisabledState => b"svIsDisabledState",
            Call::AckDisabledState => b"svAckDisabledState",
        }
    }
}

/// The call of `svdpi.h` that has this name, or None.
pub fn call_named(name: &[u8]) -> Option<Call>
    ensures { result ≡ spec.call_named name.now }
{
    CALLS.iter().copied().find(|call| call.name() == name)
}

//! What holds of all sessions. A caller gets each law from the contract of its function.

ghost use Rattle.oct_sync.specs.Exchange.{AllIsExchanged, BothEndWithAll, EachHoldsAll, EachIsAnswered, EachTakesMissing, GiftIsExchanged, ServerEndsWithAll, ServerTakesMissing};
ghost use Rattle.oct_sync.specs.Laws.{AnyCutting, GiverStays};

/// However bytes are cut into pieces, a session ends with the same phase, the same set and the same bytes sent, and a
/// refusal comes at the same frame and is the same one.
pub fn bytes_may_be_cut_anywhere()
    ensures { AnyCutting }
{}

/// A side to which the other side answers, by what it holds, is done in the end, and holds what it held and what the other
/// side held beyond the clock that it was sent, unless it gives. Where no dot has two contents, that is all that both held.
/// Whatever the two sides hold, there is such a session.
pub fn both_sides_hold_all()
    ensures missing { EachTakesMissing }
    ensures all { EachHoldsAll }
    ensures answered { EachIsAnswered }
{}

/// Where the client sends all, both sides are done in the end and hold all that either held, also where a dot has two contents.
/// Whatever the two sides hold, there is such a session.
pub fn sending_all_joins_both()
    ensures both { BothEndWithAll }
    ensures answered { AllIsExchanged }
{}

/// Where a side gives, it and its server are done in the end. It holds what it held, and the server what it held and what the
/// giver held beyond the server's clock. Where no dot has two contents, that is all that either held. Whatever the two sides
/// hold, there is such a session. Whatever comes to a giver, it holds what it held, also where the session ended early.
pub fn giving_joins_the_server_alone()
    ensures missing { ServerTakesMissing }
    ensures all { ServerEndsWithAll }
    ensures answered { GiftIsExchanged }
    ensures stays { GiverStays }
{}

//! Over a link to a lender in memory each end takes a prefix of what the other end sent.
#![tactic(auto)]

ghost use Rattle.swap_prefix.specs.Laws.{LinksHandOnAPrefix, OnlyAnEndIsLost, WhatIsTakenIsServed};
ghost use Rattle.swap_prefix.specs.Rows.{InOrder, AsksAndTells, CutChangesNothing, CutDropsAReply, FullListEnds, CrashTwice, ConnectOverALink, ForALinkThatIsGone};

/// Whatever state the lenders in memory are in, and whatever is called of them from a connect of a
/// lender to its next one, with any cuts and crashes among the calls: the messages that the lender
/// took are, in order and with their pages, a prefix of those that `send` answered `Sent` for; and
/// those that the device took are a prefix of those that the lender sent, its replies and what it
/// asks and tells beside them. Nothing is lost but the end of a list: until a list has ended, what
/// was sent on it and not taken is under way. A message with which `give` answers `Got` was served
/// with its page, as the lender's table says.
pub fn links_hand_on_a_prefix()
    ensures prefix { LinksHandOnAPrefix }
    ensures end { OnlyAnEndIsLost }
    ensures served { WhatIsTakenIsServed }
{}

/// Calls by hand: requests and replies that are taken in order, with their pages; a lender that
/// asks and tells; a cut that changes nothing; one that drops a served reply; a full list that
/// ends; a crash twice; a connect over a standing link; messages for a link that is gone.
pub fn rows()
    ensures in_order { InOrder }
    ensures asks { AsksAndTells }
    ensures cut_again { CutChangesNothing }
    ensures reply_cut { CutDropsAReply }
    ensures full { FullListEnds }
    ensures crashed { CrashTwice }
    ensures connected { ConnectOverALink }
    ensures gone { ForALinkThatIsGone }
{}

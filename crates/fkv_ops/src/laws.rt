//! What holds of a try, over every list of replies.
ghost use Rattle.fkv_ops.specs.Reasons.{EachIsTrue};
ghost use Rattle.fkv_ops.specs.Effects.{AreKindsSo, EffectsAreOnce, EffectsAreTrue, EachMayStay, LatchesAreKept, SharesFirst};
ghost use Rattle.fkv_ops.specs.EachAsk.{EachAskIsSo};
ghost use Rattle.fkv_ops.specs.LatchCounts.{EachHoldsLatch, EachLeavesLatch};
ghost use Rattle.fkv_ops.specs.Spares.{EachTellsSpare, EachUsesSpare};

/// Whatever the replies: each reason, each fault and each answer that a try ends with was found by that try. One that ends as done has
/// made its effect at just one step, by a Swap or a won Cas, and what it tells is the operation's reply on the value that was replaced;
/// one that ends otherwise has made none. Besides the asks that are said it swaps nothing, wins no Cas and stores no word. At its end it
/// holds the latch of its bucket only where its request waits, and then shared. The overflow bucket that it ends with to spare is the one
/// that its asks tell, and no other is linked.
pub fn law_reasons()
    ensures kinds { AreKindsSo }
    ensures reasons { EachIsTrue }
    ensures once { EffectsAreOnce }
    ensures effects { EffectsAreTrue }
    ensures latches { LatchesAreKept }
    ensures shares { SharesFirst }
    ensures stays { EachMayStay }
    ensures holds { EachHoldsLatch }
    ensures leaves { EachLeavesLatch }
    ensures asks { EachAskIsSo }
    ensures spare { EachTellsSpare }
    ensures links { EachUsesSpare }
{}

ghost use Rattle.model.specs.Laws.{TraceIsWalk, OneWalk, BoundIsWalked, ListsDecode, FreshSound, EditsKeepSound, SoundEnds, FewerWalkLess, QuestionGrants, QuestionTells, EntryNeeded, TargetNeeded, WindowNeeded};

// The theorems on the reference model. Each function does nothing: the check asks for what its contract says.

// What the model computes of a net's walks is what they are.
pub fn trace_is_walk() -> u8
    ensures tied { TraceIsWalk }
    ensures one { OneWalk }
    ensures bound { BoundIsWalked }
{
    0
}

// The model's lists are what decoding, step by step, gives.
pub fn lists_decode() -> u8
    ensures { ListsDecode }
{
    0
}

// A stack stays sound under every edit, and in a sound stack every walk ends.
pub fn edits_keep_sound() -> u8
    ensures fresh { FreshSound }
    ensures kept { EditsKeepSound }
    ensures walks { SoundEnds }
{
    0
}

// Taking steps away makes no walk longer.
pub fn fewer_walk_less() -> u8
    ensures { FewerWalkLess }
{
    0
}

// The question about walks says no exactly where some walk is too long, and tells the first.
pub fn question_is_exact() -> u8
    ensures grants { QuestionGrants }
    ensures tells { QuestionTells }
{
    0
}

// What a sound stack asks beside bounded walks is needed.
pub fn bounds_are_needed() -> u8
    ensures entry { EntryNeeded }
    ensures target { TargetNeeded }
    ensures window { WindowNeeded }
{
    0
}

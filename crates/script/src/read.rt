// One line.

ghost use Rattle.std.specs.Prelude.{◌≡◌, ◌^◌, ◌≢◌, ◌<◌, ◌≤◌, ◌∷◌, [], ℕ, IfSome, IsTrue, MatchOption, MatchResult, length};
ghost use Rattle.std.specs.Fmt.{decimal};
ghost use Rattle.std.specs.List.{list_any};
ghost use Rattle.life_limits.specs.declared.TheConstants.{MAX_ACTORS, MAX_BLOCKS};
ghost use Rattle.life_table.specs.Handles.{handle_text, IsHandle};
ghost use Rattle.script.specs.Words.{Kind as kind, FitAll, is_name, letter_of, words_of};
ghost use Rattle.script.specs.Commands.{call_kinds, call_named, call_word, control_of, control_word};
ghost use Rattle.script.specs.Rules.{begin_outline, call_outline, control_outline, plain_outline, is_stray, outline, IsInside};
ghost use Rattle.script.specs.Rules.{Outline as outline_of};
ghost use Rattle.script.specs.Meaning.{IsCommand, IsSpoken, Denotes, spoken_words};
ghost use Rattle.script.specs.Reading.{AreStopWords, AreWordsFault, IsLineFault, IsOutlineFault, IsWordFault, ReadsAs};

use crate::commands::{Call, Control, read_call, read_control};
use crate::fault::{LineFault, Rule};
use crate::name::Name;
use crate::pieces::Pieces;
use crate::types::{Command, Spoken};
use crate::words::{is_name as has_form_of_name, read_actor, read_handle_word, read_number};
use life_limits::MAX_BLOCKS as MOST_BLOCKS;
use life_table::Handle;
use std::alloc::Global;

const FIRST_WORD: LineFault = LineFault::Breaks(Rule::FirstWord);

const WORD_COUNT: LineFault = LineFault::Breaks(Rule::WordCount);

const WORD_FORM: LineFault = LineFault::Breaks(Rule::WordForm);

const CALL_FOLLOWS: LineFault = LineFault::Breaks(Rule::CallFollows);

fn no_words(mut words: Pieces) -> Result<(), LineFault>
    ensures { MatchResult result (λ _. words.entry ≡ []) (AreWordsFault [] words.entry) }
{
    match words.next() {
        None => Ok(()),
        Some(_) => Err(WORD_COUNT),
    }
}

fn one_word(mut words: Pieces<'_>) -> Option<&[u8]>
    ensures { MatchOption result (1 ≢ length words.entry) (λ word. words.entry ≡ word.now ∷ []) }
{
    let word = words.next()?;
    match words.next() {
        None => Some(word),
        Some(_) => None,
    }
}

fn two_words(mut words: Pieces<'_>) -> Option<(&[u8], &[u8])>
    ensures { MatchOption result (2 ≢ length words.entry) (λ both. words.entry ≡ both.0.now ∷ both.1.now ∷ []) }
{
    let first = words.next()?;
    let second = words.next()?;
    match words.next() {
        None => Some((first, second)),
        Some(_) => None,
    }
}

fn read_name(alloc: Global, word: &[u8]) -> Result<Name, LineFault>
    ensures { MatchResult result (λ name. (name ≡ word.now) × IsTrue (is_name name)) (IsWordFault kind.name word.now) }
{
    if !has_form_of_name(word) {
        return Err(WORD_FORM);
    }
    Ok(Name::from_vec(Vec::from_slice(alloc, word)?))
}

fn read_group(word: &[u8]) -> Result<u32, LineFault>
    ensures { MatchResult result (λ group. (group < 2 ^ 32) × (word.now ≡ decimal group)) (IsWordFault kind.group word.now) }
{
    read_number(word, 0, u32::MAX).ok_or(WORD_FORM)
}

fn read_blocks(word: &[u8]) -> Result<u32, LineFault>
    ensures { MatchResult result (λ count. (1 ≤ count) × (count ≤ MAX_BLOCKS) × (word.now ≡ decimal count)) (IsWordFault kind.blocks word.now) }
{
    read_number(word, 1, MOST_BLOCKS).ok_or(WORD_FORM)
}

fn one_actor(words: Pieces) -> Result<u32, LineFault>
    ensures { MatchResult result (λ actor. (words.entry ≡ letter_of actor ∷ []) × (actor < MAX_ACTORS) × FitAll (kind.actor ∷ []) words.entry)
        (AreWordsFault (kind.actor ∷ []) words.entry) }
{
    let word = one_word(words).ok_or(WORD_COUNT)?;
    read_actor(word).ok_or(WORD_FORM)
}

fn one_name(alloc: Global, words: Pieces) -> Result<Name, LineFault>
    ensures { MatchResult result (λ name. (words.entry ≡ name ∷ []) × IsTrue (is_name name) × FitAll (kind.name ∷ []) words.entry)
        (AreWordsFault (kind.name ∷ []) words.entry) }
{
    let word = one_word(words).ok_or(WORD_COUNT)?;
    read_name(alloc, word)
}

fn one_group(words: Pieces) -> Result<u32, LineFault>
    ensures { MatchResult result (λ group. (words.entry ≡ decimal group ∷ []) × (group < 2 ^ 32) × FitAll (kind.group ∷ []) words.entry)
        (AreWordsFault (kind.group ∷ []) words.entry) }
{
    let word = one_word(words).ok_or(WORD_COUNT)?;
    read_group(word)
}

fn group_and_name(alloc: Global, words: Pieces) -> Result<(u32, Name), LineFault>
    ensures { MatchResult result (λ both. (words.entry ≡ decimal both.0 ∷ both.1 ∷ []) × (both.0 < 2 ^ 32) × IsTrue (is_name both.1) × FitAll (kind.group ∷ kind.name ∷ []) words.entry)
        (AreWordsFault (kind.group ∷ kind.name ∷ []) words.entry) }
{
    let (group, name) = two_words(words).ok_or(WORD_COUNT)?;
    let group = read_group(group)?;
    Ok((group, read_name(alloc, name)?))
}

fn name_and_blocks(alloc: Global, words: Pieces) -> Result<(Name, u32), LineFault>
    ensures { MatchResult result (λ both. (words.entry ≡ both.0 ∷ decimal both.1 ∷ []) × IsTrue (is_name both.0) × (1 ≤ both.1) × (both.1 ≤ MAX_BLOCKS)
        × FitAll (kind.name ∷ kind.blocks ∷ []) words.entry) (AreWordsFault (kind.name ∷ kind.blocks ∷ []) words.entry) }
{
    let (name, count) = two_words(words).ok_or(WORD_COUNT)?;
    let count = read_blocks(count)?;
    Ok((read_name(alloc, name)?, count))
}

/// The call with this command and these words behind it.
fn read_spoken(alloc: Global, call: Call, words: Pieces) -> Result<Spoken, LineFault>
    ensures { MatchResult result (λ spoken. (call_word call ∷ words.entry ≡ spoken_words spoken) × IsSpoken spoken × FitAll (call_kinds call) words.entry)
        (AreWordsFault (call_kinds call) words.entry) }
{
    match call {
        Call::Create => {
            let (group, name) = group_and_name(alloc, words)?;
            Ok(Spoken::Create { group, name })
        }
        Call::Tmpfile => {
            let (group, name) = group_and_name(alloc, words)?;
            Ok(Spoken::Tmpfile { group, name })
        }
        Call::Open => Ok(Spoken::Open {
            name: one_name(alloc, words)?,
        }),
        Call::Close => Ok(Spoken::Close {
            name: one_name(alloc, words)?,
        }),
        Call::Link => Ok(Spoken::Link {
            name: one_name(alloc, words)?,
        }),
        Call::Unlink => Ok(Spoken::Unlink {
            name: one_name(alloc, words)?,
        }),
        Call::Grow => {
            let (name, count) = name_and_blocks(alloc, words)?;
            Ok(Spoken::Grow { name, count })
        }
        Call::Cut => {
            let (name, count) = name_and_blocks(alloc, words)?;
            Ok(Spoken::Cut { name, count })
        }
        Call::Stat => Ok(Spoken::Stat {
            name: one_name(alloc, words)?,
        }),
        Call::Sync => {
            no_words(words)?;
            Ok(Spoken::Sync)
        }
        Call::Home => {
            no_words(words)?;
            Ok(Spoken::Home)
        }
        Call::Gc => {
            no_words(words)?;
            Ok(Spoken::Gc)
        }
        Call::Flush => Ok(Spoken::Flush {
            group: one_group(words)?,
        }),
        Call::Reclaim => Ok(Spoken::Reclaim {
            group: one_group(words)?,
        }),
    }
}

/// A whole call of an actor, behind its letter.
fn read_whole(alloc: Global, actor: u32, mut words: Pieces) -> Result<Command, LineFault>
    requires { actor < MAX_ACTORS }
    ensures { ReadsAs (call_outline [] [] words.entry) (letter_of actor ∷ words.entry) result }
{
    let Some(word) = words.next() else {
        return Err(WORD_COUNT);
    };
    let Some(call) = read_call(word) else {
        return Err(CALL_FOLLOWS);
    };
    let spoken = read_spoken(alloc, call, words)?;
    Ok(Command::Whole { actor, spoken })
}

/// The begin of a call, behind `begin`.
fn read_begin(alloc: Global, mut words: Pieces) -> Result<Command, LineFault>
    ensures { ReadsAs (begin_outline words.entry) (control_word Control.Begin ∷ words.entry) result }
{
    let Some(who) = words.next() else {
        return Err(WORD_COUNT);
    };
    let Some(word) = words.next() else {
        return Err(WORD_COUNT);
    };
    let Some(call) = read_call(word) else {
        return Err(no_call_behind(who));
    };
    let spoken = read_spoken(alloc, call, words)?;
    let Some(actor) = read_actor(who) else {
        return Err(WORD_FORM);
    };
    Ok(Command::Begin { actor, spoken })
}

// Why a line is refused that begins a call with a word that is none.
fn no_call_behind(who: &[u8]) -> LineFault
    ensures { IsOutlineFault (outline_of.NoCall (kind.actor ∷ []) (who.now ∷ [])) result }
{
    match read_actor(who) {
        Some(_) => CALL_FOLLOWS,
        None => WORD_FORM,
    }
}

/// The words behind `stop`.
enum StopWords<'a> {
    None,
    Two(&'a [u8], &'a [u8]),
    /// One word, or three or more.
    Others,
}

fn stop_words(mut words: Pieces<'_>) -> StopWords<'_>
    ensures { AreStopWords words.entry result }
{
    let Some(count) = words.next() else {
        return StopWords::None;
    };
    match one_word(words) {
        Some(first) => StopWords::Two(count, first),
        None => StopWords::Others,
    }
}

/// A stop, now or at a write to come.
fn read_stop(words: Pieces) -> Result<Command, LineFault>
    ensures { ReadsAs (control_outline words.entry Control.Stop) (control_word Control.Stop ∷ words.entry) result }
{
    match stop_words(words) {
        StopWords::None => Ok(Command::Stop),
        StopWords::Two(count, first) => {
            let count = read_number(count, 1, u32::MAX).ok_or(WORD_FORM)?;
            let first = read_number(first, 0, u32::MAX).ok_or(WORD_FORM)?;
            Ok(Command::Arm { count, first })
        }
        StopWords::Others => Err(WORD_COUNT),
    }
}

fn read_bind(alloc: Global, words: Pieces) -> Result<Command, LineFault>
    ensures { ReadsAs (control_outline words.entry Control.Name) (control_word Control.Name ∷ words.entry) result }
{
    let (name, handle) = two_words(words).ok_or(WORD_COUNT)?;
    let handle = read_handle_word(handle).ok_or(WORD_FORM)?;
    let name = read_name(alloc, name)?;
    Ok(Command::Bind { name, handle })
}

/// A line that begins with the word of a control line.
fn read_control_line(alloc: Global, control: Control, words: Pieces) -> Result<Command, LineFault>
    ensures { ReadsAs (control_outline words.entry control) (control_word control ∷ words.entry) result }
{
    match control {
        Control::Mount => {
            no_words(words)?;
            Ok(Command::Mount)
        }
        Control::Unmount => {
            no_words(words)?;
            Ok(Command::Unmount)
        }
        Control::Stop => read_stop(words),
        Control::Name => read_bind(alloc, words),
        Control::Begin => read_begin(alloc, words),
        Control::Step => {
            let actor = one_actor(words)?;
            Ok(Command::Step { actor })
        }
        Control::Finish => {
            let actor = one_actor(words)?;
            Ok(Command::Finish { actor })
        }
    }
}

/// A line that does not begin with an actor's letter, from its first word on.
fn read_plain(alloc: Global, first: &[u8], words: Pieces) -> Result<Command, LineFault>
    ensures { ReadsAs (plain_outline words.entry (call_named first.now) (control_of first.now)) (first.now ∷ words.entry) result }
{
    match read_call(first) {
        Some(call) => {
            let spoken = read_spoken(alloc, call, words)?;
            Ok(Command::Whole { actor: 0, spoken })
        }
        None => match read_control(first) {
            Some(control) => read_control_line(alloc, control, words),
            None => Err(FIRST_WORD),
        },
    }
}

/// The words of a line.
fn read_words(alloc: Global, mut words: Pieces) -> Result<Command, LineFault>
    ensures { ReadsAs (outline words.entry) words.entry result }
{
    let Some(first) = words.next() else {
        return Err(FIRST_WORD);
    };
    match read_actor(first) {
        Some(actor) => read_whole(alloc, actor, words),
        None => read_plain(alloc, first, words),
    }
}

fn has_stray_byte(line: &[u8]) -> bool
    ensures { result ≡ list_any is_stray line.now }
{
    line.iter().any(|b| *b < b' ' || b'~' < *b)
}

/// What a line asks for that is neither empty nor a comment.
pub(crate) fn read_line(alloc: Global, line: &[u8]) -> Result<Command, LineFault>
    ensures { MatchResult result (λ command. IsInside line.now × Denotes (words_of line.now) command × IsCommand command) (IsLineFault line.now) }
{
    if has_stray_byte(line) {
        return Err(LineFault::Breaks(Rule::Bytes));
    }
    read_words(alloc, Pieces::new(line, b' '))
}

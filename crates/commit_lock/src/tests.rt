ghost use Rattle.std.specs.Prelude.{◌≡◌, ◌+◌, ◌<◌, ◌≤◌, ℕ, [], ◌∷◌, length, vec_len, vec_capacity, IfOk, slice_index_or};
ghost use Rattle.commit_lock.specs.declared.tests.Editor.{Editor as EditorValue};
ghost use Rattle.commit_lock.specs.History.{IsPrefix};
ghost use Rattle.commit_lock.specs.Passes.{PassValue, IsSamePass};

use crate::{Chronicle, Note, Pass, Setting, TurnLock};
use std::alloc::AllocError;
use std::process::Abort;
use std::sync::Wait;
use std::test::Fail;
use std::thread;
use std::thread::Threads;
use topo_base::{Edit, Entry, Limits, NodeId};

#[derive(Drop)]
struct Book {
    entries: Vec<Entry>,
    faults: u64,
    setting: Setting,
}

impl Chronicle for Book {
    ghost entries = { λ b. b.entries.items };

    ghost faults = { λ b. b.faults };

    ghost setting = { λ b. b.setting };
}

fn new_book(rt: &HostRuntime) -> Book
    ensures { result.faults ≡ 0 }
{
    Book {
        entries: Vec::new(rt.alloc()),
        faults: 0,
        setting: Setting {
            limits: Limits::standard(),
            faults: 0,
            start: 0,
            length: 0,
        },
    }
}

// In every tenth turn an editor meets a fault, and in each other it adds an entry that has the turn's number.
fn is_faulty(turn: u32) -> bool {
    turn % 10 == 9
}

fn take_turn<R: Wait>(rt: &R, lock: &TurnLock<Book>, pass: Pass, editor: u32, number: u32) -> Pass
    requires lock { pass.lock ≡ lock.now.id }
    requires editor { editor ≡ pass.number }
    ensures { IsSamePass pass result }
{
    let (turn, mut book) = lock.take(rt, pass);
    if is_faulty(number) {
        book.faults = book.faults.saturating_add(1);
        return lock.give(turn, book);
    }
    let edit = Edit::RemoveIsoNode {
        node: NodeId(number),
    };
    match book.entries.push(Entry { editor, edit }) {
        Ok(()) => lock.give_grown(turn, book),
        Err(_) => lock.give(turn, book),
    }
}

fn take_turns<R: Wait>(
    rt: &R,
    lock: &TurnLock<Book>,
    pass: Pass,
    editor: u32,
    start: u32,
    end: u32,
) -> Pass
    requires lock { pass.lock ≡ lock.now.id }
    requires editor { editor ≡ pass.number }
    ensures { IsSamePass pass result }
{
    let mut mine = pass;
    for number in start..end {
        mine = take_turn(rt, lock, mine, editor, number);
    }
    mine
}

// Editor 1 makes a note at the end of its turns.
fn take_and_note<R: Threads + Wait + Sync>(
    rt: &R,
    lock: &TurnLock<Book>,
    one: Pass,
    two: Pass,
) -> ((Note, Pass), Pass)
    requires one { (one.lock ≡ lock.now.id) × (one.number ≡ 1) }
    requires two { (two.lock ≡ lock.now.id) × (two.number ≡ 2) }
    ensures note { result.0.0.lock ≡ lock.now.id }
    ensures one { IsSamePass one result.0.1 }
    ensures two { IsSamePass two result.1 }
{
    thread::join(
        rt,
        move || -> (Note, Pass)
            requires { (one.lock ≡ lock.now.id) × (one.number ≡ 1) }
            ensures { (result.0.lock ≡ one.lock) × IsSamePass one result.1 }
        { lock.note(take_turns(rt, lock, one, 1, 0, 100)) },
        move || -> Pass
            requires { (two.lock ≡ lock.now.id) × (two.number ≡ 2) }
            ensures { IsSamePass two result }
        { take_turns(rt, lock, two, 2, 0, 100) },
    )
}

// Editor 2 is told of the note before its turns.
fn learn_and_take<R: Threads + Wait + Sync>(
    rt: &R,
    lock: &TurnLock<Book>,
    one: Pass,
    two: Pass,
    note: Note,
) -> (Pass, Pass)
    requires one { (one.lock ≡ lock.now.id) × (one.number ≡ 1) }
    requires two { (two.lock ≡ lock.now.id) × (two.number ≡ 2) }
    requires note { note.lock ≡ lock.now.id }
    ensures one { IsSamePass one result.0 }
    ensures two { IsSamePass two result.1 }
{
    thread::join(
        rt,
        move || -> Pass
            requires { (one.lock ≡ lock.now.id) × (one.number ≡ 1) }
            ensures { IsSamePass one result }
        { take_turns(rt, lock, one, 1, 100, 200) },
        move || -> Pass
            requires { (two.lock ≡ lock.now.id) × (two.number ≡ 2) × (note.lock ≡ lock.now.id) }
            ensures { IsSamePass two result }
        { take_turns(rt, lock, lock.learn(two, note), 2, 100, 200) },
    )
}

// The number of an editor's turn in which the entry came.
fn turn_of(entry: &Entry) -> Option<u32> {
    match &entry.edit {
        Edit::RemoveIsoNode { node } => Some(node.0),
        _ => None,
    }
}

// The turn after this one in which an editor adds an entry.
fn next_turn(turn: u32) -> u32 {
    let next = turn.wrapping_add(1);
    if is_faulty(next) {
        next.wrapping_add(1)
    } else {
        next
    }
}

// The editor's entries are those of its turns without a fault, in order.
fn assert_all_there<A: Abort>(rt: &A, book: &Book, editor: u32, turns: u32) {
    let mut due = 0;
    for entry in &book.entries {
        if entry.editor == editor {
            assert_eq!(rt; turn_of(entry), Some(due));
            due = next_turn(due);
        }
    }
    assert_eq!(rt; due, turns);
}

#[test]
fn two_threads_and_a_note(rt: HostRuntime) -> Result<(), Fail> {
    let book = new_book(&rt);
    let Ok((lock, mut passes)) = TurnLock::make(rt.alloc(), book, 2) else {
        return Err(Fail::from("memory"));
    };
    let (Some(two), Some(one)) = (passes.pop(), passes.pop()) else {
        unreachable!()
    };
    let ((note, one), two) = take_and_note(&rt, &lock, one, two);
    let (one, two) = learn_and_take(&rt, &lock, one, two, note);
    passes.push_reserved(one);
    passes.push_reserved(two);
    let book = lock.close(passes);
    assert_eq!(rt; book.entries.len(), 360);
    assert_eq!(rt; book.faults, 40);
    assert_all_there(&rt, &book, 1, 200);
    assert_all_there(&rt, &book, 2, 200);
    let noted = book
        .entries
        .iter()
        .position(|e| e.editor == 1 && turn_of(e) == Some(98));
    let told = book
        .entries
        .iter()
        .position(|e| e.editor == 2 && turn_of(e) == Some(100));
    assert!(rt; noted.is_some() && noted < told);
    Ok(())
}

// An editor's number and its pass, for a thread.
#[derive(Drop)]
struct Editor {
    number: u32,
    pass: Pass,
}

// Puts each pass beside its number, the last first.
fn editors_of(lock: &TurnLock<Book>, mut passes: Vec<Pass>, mut editors: Vec<Editor>) -> Vec<Editor>
    requires room { (editors.items ≡ []) × (vec_len passes ≤ vec_capacity editors) × (vec_len passes ≤ 64) }
    requires each { (i : ℕ) (d : PassValue) → i < vec_len passes → let p = slice_index_or passes.items i d in (p.lock ≡ lock.now.id) × (p.number ≡ i + 1) }
    ensures len { vec_len result ≡ vec_len passes }
    ensures each { (i : ℕ) (d : EditorValue) → i < vec_len passes → let e = slice_index_or result.items i d in (e.pass.lock ≡ lock.now.id) × (e.number ≡ e.pass.number) × (e.number + i ≡ vec_len passes) }
{
    'puts: while let Some(pass) = passes.pop() {
        let number = passes.len() as u32 + 1;
        editors.push_reserved(Editor { number, pass });
    }
    passes.destroy_empty();
    editors
}

// Each editor has a thread of its own.
fn run_editors<R: Threads + Wait + Sync>(
    rt: &R,
    lock: &TurnLock<Book>,
    editors: Vec<Editor>,
    turns: u32,
) -> Result<Vec<Pass>, AllocError>
    requires { (i : ℕ) (d : EditorValue) → i < vec_len editors → let e = slice_index_or editors.items i d in (e.pass.lock ≡ lock.now.id) × (e.number ≡ e.pass.number) × (e.number + i ≡ vec_len editors) }
    ensures len { IfOk result (λ v. vec_len v ≡ vec_len editors) }
    ensures each { IfOk result (λ v. (i : ℕ) (d : PassValue) → i < vec_len editors → let p = slice_index_or v.items i d in (p.lock ≡ lock.now.id) × (p.number + i ≡ vec_len editors)) }
{
    thread::map_vec(
        rt,
        editors,
        &|editor: Editor| -> Pass
            requires { (editor.pass.lock ≡ lock.now.id) × (editor.number ≡ editor.pass.number) }
            ensures { IsSamePass editor.pass result }
        {
            let Editor { number, pass } = editor;
            take_turns(rt, lock, pass, number, 0, turns)
        },
    )
}

#[test]
fn eight_threads(rt: HostRuntime) -> Result<(), Fail> {
    let book = new_book(&rt);
    let editors = Vec::with_capacity(rt.alloc(), 8)?;
    let Ok((lock, passes)) = TurnLock::make(rt.alloc(), book, 8) else {
        return Err(Fail::from("memory"));
    };
    let editors = editors_of(&lock, passes, editors);
    let passes = run_editors(&rt, &lock, editors, 50).expect(&rt, "memory");
    let book = lock.close(passes);
    assert_eq!(rt; book.entries.len(), 360);
    assert_eq!(rt; book.faults, 40);
    for editor in 1..9 {
        assert_all_there(&rt, &book, editor, 50);
    }
    Ok(())
}

//! A service as the lines describe it, and the answer to each line.
ghost use Rattle.std.specs.Prelude.{◌≡◌, ◌≤◌, ◌<◌, ◌+◌, ◌^◌, [], ◌∷◌, ◌++◌, length, OnOk, OnErr, IfOk, IfErr};
ghost use Rattle.std.specs.Prelude.{IsErrOf, Err, ℕ, ◌≢◌, map, string_bytes};
ghost use Rattle.tai_status.specs.Counted.{Fails, Works, Wrote, WroteFront, IsRead};
ghost use Rattle.tai_status.specs.Block.{Puts};
ghost use Rattle.tai_status.specs.LineReader.{IsPlain};
ghost use Rattle.cmd_base.specs.Printed.{printed};
ghost use Rattle.cmd_sim.specs.declared.answering.Subject.TheVariants as code;
ghost use Rattle.cmd_sim.specs.declared.fault.SimFault.{SimFault};
ghost use Rattle.cmd_sim.specs.declared.fault.Why.{Why};
ghost use Rattle.cmd_sim.specs.declared.fault.NoAnswer.{NoAnswer};
ghost use Rattle.cmd_sim.specs.Sim.{IfRefused, Past, said, at_line, AnswersAll, AnswersUpTo, AnswersFront, LacksMemory};
ghost use Rattle.cmd_sim.specs.Sim.{AnswersWholeLines, MayWantMemory};
ghost use Rattle.cmd_sim.specs.Progress.{Stands, Says, texts_in};
ghost use Rattle.cmd_sim.specs.Session.{AnswersLine, AnswersToEnd, GoesOn, LeavesFront, MissesLast, MissesMemory};
ghost use Rattle.cmd_sim.specs.Session.{ReadsUpTo, RefusesAt, RefusesLast, WritesFrontWith};

use crate::answering::{Answer, Subject};
use crate::fault::{NoAnswer, SimFault, Why};
use std::alloc::{AllocError, Allocator};
use std::io::{Read, Write};
use tai_status::{Block, Input, LineFault, LineReader, Output};

/// The most bytes of a line, without its newline.
const LINE_BOUND: usize = 65_536;

/// What the lines so far said, how many lines there were, and the answers that wait to be written.
#[derive(Drop)]
struct Session<A: Allocator + Clone> {
    alloc: A,
    subject: Subject<A>,
    count: u64,
    waiting: Block,
}

impl<A: Allocator + Clone + Copy> Session<A> {
    fn new(alloc: A) -> Session<A>
        ensures subject { result.subject ≡ code.Nothing }
        ensures count { result.count ≡ 0 }
        ensures waiting { result.waiting ≡ [] }
    {
        Session {
            alloc,
            subject: Subject::Nothing,
            count: 0,
            waiting: Block::new(),
        }
    }

    /// Answers a line.
    fn answer(&mut self, line: &[u8]) -> Result<Answer<A>, NoAnswer>
        ensures ok { IfOk result (λ answer. (past : Past) → Stands past self.old.subject
            → Says past line.now (texts_in answer) self.new.subject) }
        ensures refused { (why : Why) → IsErrOf result (NoAnswer.Refused why)
            → (past : Past) → Stands past self.old.subject → said past line.now ≡ Err why }
        ensures memory { IsErrOf result NoAnswer.OutOfMemory
            → (past : Past) → Stands past self.old.subject → MayWantMemory past line.now }
        ensures count { self.new.count ≡ self.old.count }
        ensures waiting { self.new.waiting ≡ self.old.waiting }
    {
        if line.len() > LINE_BOUND {
            return Err(NoAnswer::Refused(Why::Line));
        }
        self.subject.answer(self.alloc, line)
    }

    /// Writes the answers that wait.
    fn flush<W: Write>(&mut self, writer: &mut Output<W>) -> Result<(), SimFault>
        // If it succeeds, all that waited is written, and nothing waits.
        ensures ok { OnOk result (Wrote writer.old writer.new self.old.waiting) }
        ensures waiting { OnOk result (self.new.waiting ≡ []) }

        // If it fails, the writer failed after a prefix of what waited. If it succeeds, no call of the writer failed.
        ensures err { OnErr result (WroteFront writer.old writer.new self.old.waiting) }
        ensures why { IfErr result (λ fault. fault ≡ SimFault.Write) }
        ensures fault { OnErr result (Fails writer.old writer.new) }
        ensures faults { OnOk result (Works writer.old writer.new) }

        // What the lines so far said, and how many there were, stays as it was.
        ensures subject { self.new.subject ≡ self.old.subject }
        ensures count { self.new.count ≡ self.old.count }
    {
        match self.waiting.flush(writer) {
            Ok(()) => Ok(()),
            Err(_) => Err(SimFault::Write),
        }
    }

    /// Adds an answer after those that wait.
    fn put<W: Write>(&mut self, text: &[u8], writer: &mut Output<W>) -> Result<(), SimFault>
        // If it succeeds, the answer and a newline come after what waited. Some of these bytes may be written already.
        ensures ok { OnOk result (Puts writer.old writer.new self.old.waiting self.new.waiting (text.now ++ 10 ∷ [])) }

        // If it fails, the writer failed after a prefix of these bytes. If it succeeds, no call of the writer failed.
        ensures err { OnErr result (WroteFront writer.old writer.new (self.old.waiting ++ (text.now ++ 10 ∷ []))) }
        ensures why { IfErr result (λ fault. fault ≡ SimFault.Write) }
        ensures fault { OnErr result (Fails writer.old writer.new) }
        ensures faults { OnOk result (Works writer.old writer.new) }

        // What the lines so far said, and how many there were, stays as it was.
        ensures subject { self.new.subject ≡ self.old.subject }
        ensures count { self.new.count ≡ self.old.count }
    {
        match self.waiting.put_both(text, b"\n", writer) {
            Ok(()) => Ok(()),
            Err(_) => Err(SimFault::Write),
        }
    }

    /// Adds answers after those that wait.
    fn put_all<W: Write>(
        &mut self,
        answer: &Answer<A>,
        writer: &mut Output<W>,
    ) -> Result<(), SimFault>
        // If it succeeds, each line of the answer, with a newline, comes after what waited. Some of these bytes may be
        // written already.
        ensures ok { OnOk result
            (Puts writer.old writer.new self.old.waiting self.new.waiting (printed (texts_in answer.now))) }

        // If it fails, the writer failed after a prefix of these bytes. If it succeeds, no call of the writer failed.
        ensures err { OnErr result
            (WroteFront writer.old writer.new (self.old.waiting ++ printed (texts_in answer.now))) }
        ensures why { IfErr result (λ fault. fault ≡ SimFault.Write) }
        ensures fault { OnErr result (Fails writer.old writer.new) }
        ensures faults { OnOk result (Works writer.old writer.new) }

        // What the lines so far said, and how many there were, stays as it was.
        ensures subject { self.new.subject ≡ self.old.subject }
        ensures count { self.new.count ≡ self.old.count }
    {
        match answer {
            Answer::Line(text) => self.put(text.as_bytes(), writer),
            Answer::Lines(lines) => self.put_lines(lines.as_slice(), writer),
        }
    }

    /// Adds lines after the answers that wait.
    fn put_lines<W: Write>(
        &mut self,
        lines: &[String<A>],
        writer: &mut Output<W>,
    ) -> Result<(), SimFault>
        // If it succeeds, each of the lines, with a newline, comes after what waited. Some of these bytes may be
        // written already.
        ensures ok { OnOk result (Puts writer.old writer.new self.old.waiting self.new.waiting
            (printed (map (λ line. string_bytes line) lines.now))) }

        // If it fails, the writer failed after a prefix of these bytes. If it succeeds, no call of the writer failed.
        ensures err { OnErr result (WroteFront writer.old writer.new
            (self.old.waiting ++ printed (map (λ line. string_bytes line) lines.now))) }
        ensures why { IfErr result (λ fault. fault ≡ SimFault.Write) }
        ensures fault { OnErr result (Fails writer.old writer.new) }
        ensures faults { OnOk result (Works writer.old writer.new) }

        // What the lines so far said, and how many there were, stays as it was.
        ensures subject { self.new.subject ≡ self.old.subject }
        ensures count { self.new.count ≡ self.old.count }
    {
        for line in lines {
            self.put(line.as_bytes(), writer)?;
        }
        Ok(())
    }

    /// Returns the fault for a next line that has no answer. The answers that wait are written first.
    fn give_up<W: Write>(&mut self, none: NoAnswer, writer: &mut Output<W>) -> SimFault
        requires { self.old.count < 2 ^ 63 }

        // `Refused` has the number of the next line and the reason. All that waited is written, and no call of the
        // writer failed.
        ensures refused { (number : ℕ) (why : Why) → result ≡ SimFault.Refused number why
            → (number ≡ self.old.count + 1) × (none ≡ NoAnswer.Refused why) }
        ensures refused_wrote { (number : ℕ) (why : Why) → result ≡ SimFault.Refused number why
            → Wrote writer.old writer.new self.old.waiting }
        ensures refused_works { (number : ℕ) (why : Why) → result ≡ SimFault.Refused number why
            → Works writer.old writer.new }

        // `OutOfMemory` is returned only if memory was missing for the answer. All that waited is written.
        ensures memory { result ≡ SimFault.OutOfMemory
            → (none ≡ NoAnswer.OutOfMemory) × Wrote writer.old writer.new self.old.waiting }

        // `Write` is returned only if the writer failed after a prefix of what waited. Nothing is read, so `Read` is
        // not returned.
        ensures write { result ≡ SimFault.Write
            → WroteFront writer.old writer.new self.old.waiting × Fails writer.old writer.new }
        ensures neither { result ≢ SimFault.Read }
    {
        match self.flush(writer) {
            Ok(()) => match none {
                NoAnswer::Refused(why) => SimFault::Refused {
                    line: self.count + 1,
                    why,
                },
                NoAnswer::OutOfMemory => SimFault::OutOfMemory,
            },
            Err(fault) => fault,
        }
    }

    /// Answers a line, after the answers that wait. If the line has no answer, those are written.
    fn answer_line<W: Write>(&mut self, line: &[u8], writer: &mut Output<W>) -> Result<(), SimFault>
        requires { self.old.count < 2 ^ 63 }

        // If it succeeds, the answer to the line comes after what waited, and the line is counted.
        ensures ok { OnOk result (AnswersLine line.now writer.old self.old writer.new self.new) }
        ensures count { OnOk result (self.new.count ≡ self.old.count + 1) }

        // A refusal has the number of this line, and a reason that is right after any earlier lines that lead to this
        // subject. All that waited is written, and no call of the writer failed.
        ensures refused { IfRefused result (λ _ why.
            (past : Past) → Stands past self.old.subject → said past line.now ≡ Err why) }
        ensures refused_wrote { IfRefused result (λ number _.
            (number ≡ self.old.count + 1) × Wrote writer.old writer.new self.old.waiting) }
        ensures refused_works { IfRefused result (λ _ _. Works writer.old writer.new) }

        // If memory is missing, the line may need memory, and all that waited is written.
        ensures memory { IsErrOf result SimFault.OutOfMemory
            → (past : Past) → Stands past self.old.subject → MayWantMemory past line.now }
        ensures memory_wrote { IsErrOf result SimFault.OutOfMemory → Wrote writer.old writer.new self.old.waiting }

        // If the writer fails, it wrote a prefix of what waited and the answer after it. If it succeeds, no call of the
        // writer failed. Nothing is read, so there is no fault of the reader.
        ensures write { IsErrOf result SimFault.Write → WritesFrontWith line.now writer.old self.old writer.new }
        ensures fault { IsErrOf result SimFault.Write → Fails writer.old writer.new }
        ensures faults { OnOk result (Works writer.old writer.new) }
        ensures neither { IfErr result (λ fault. fault ≢ SimFault.Read) }
    {
        match self.answer(line) {
            Ok(answer) => {
                self.put_all(&answer, writer)?;
                self.count += 1;
                Ok(())
            }
            Err(none) => Err(self.give_up(none, writer)),
        }
    }

    /// Answers the whole lines that are pending, and writes the answers.
    fn answer_pending<W: Write>(
        &mut self,
        lines: &mut LineReader<A>,
        writer: &mut Output<W>,
    ) -> Result<(), SimFault>
        requires { self.old.count + length lines.old.pending ≤ 2 ^ 63 }

        // If it succeeds, the answer to each whole line is written, and what is still pending has no newline. The count
        // of lines rises by no more than the number of pending bytes falls.
        ensures ok { OnOk result
            (GoesOn writer.old lines.old.pending self.old writer.new lines.new.pending self.new) }
        ensures waiting { OnOk result (self.new.waiting ≡ []) }
        ensures plain { OnOk result (IsPlain lines.new.pending) }
        ensures room { OnOk result (self.new.count + length lines.new.pending
            ≤ self.old.count + length lines.old.pending) }

        // In each case there are no more pending bytes than before, and the bound of a line stays.
        ensures less { length lines.new.pending ≤ length lines.old.pending }
        ensures bound { lines.new.bound ≡ lines.old.bound }

        // If a line is refused, it is the first one that is, and the answer to each line before it is written. If no
        // more than 98,304 bytes were pending, at most that many were read after the lines before it. No call of the
        // writer failed.
        ensures refused { IfRefused result (λ number why.
            RefusesAt number why writer.old lines.old.pending self.old writer.new) }
        ensures near { IfRefused result (λ number _.
            ReadsUpTo number writer.old lines.old.pending self.old) }
        ensures refused_works { IfRefused result (λ _ _. Works writer.old writer.new) }

        // If the writer fails, it wrote a prefix of the answer to what was read. If it succeeds, no call of the writer
        // failed.
        ensures write { IsErrOf result SimFault.Write
            → LeavesFront writer.old lines.old.pending self.old writer.new }
        ensures fault { IsErrOf result SimFault.Write → Fails writer.old writer.new }
        ensures faults { OnOk result (Works writer.old writer.new) }

        // If memory is missing, it ran out at a line of a suite, and the answer to each line before it is written.
        // Nothing is read here, so there is no fault of the reader.
        ensures memory { IsErrOf result SimFault.OutOfMemory
            → MissesMemory writer.old lines.old.pending self.old writer.new }
        ensures neither { IfErr result (λ fault. fault ≢ SimFault.Read) }
    {
        'each: while lines.take_line() {
            self.answer_line(lines.line(), writer)?;
        }
        self.flush(writer)
    }

    /// Answers the last line, if it has no newline, and writes the answer.
    fn answer_rest<W: Write>(
        &mut self,
        lines: &mut LineReader<A>,
        writer: &mut Output<W>,
    ) -> Result<(), SimFault>
        // No whole line is pending and nothing waits, as after `answer_pending`. One more line can be counted.
        requires room { self.old.count + length lines.old.pending ≤ 2 ^ 63 }
        requires plain { IsPlain lines.old.pending }
        requires waiting { self.old.waiting ≡ [] }

        // If it succeeds and the input has ended, the answer to all of it is written.
        ensures all { OnOk result (AnswersToEnd writer.old lines.old.pending self.old writer.new) }

        // If the line is refused and the input has ended, it is the first one that is refused, and the answer to each
        // line before it is written. If no more than 98,304 bytes were pending, at most that many were read after the
        // lines before it. No call of the writer failed.
        ensures refused { IfRefused result (λ number why.
            RefusesLast number why writer.old lines.old.pending self.old writer.new) }
        ensures near { IfRefused result (λ number _.
            ReadsUpTo number writer.old lines.old.pending self.old) }
        ensures refused_works { IfRefused result (λ _ _. Works writer.old writer.new) }

        // If the writer fails, it wrote a prefix of the answer to what was read. If it succeeds, no call of the writer
        // failed.
        ensures write { IsErrOf result SimFault.Write
            → LeavesFront writer.old lines.old.pending self.old writer.new }
        ensures fault { IsErrOf result SimFault.Write → Fails writer.old writer.new }
        ensures faults { OnOk result (Works writer.old writer.new) }

        // If memory is missing and the input has ended, it ran out at a line of a suite, and the answer to each line
        // before it is written. Nothing is read here, so there is no fault of the reader.
        ensures memory { IsErrOf result SimFault.OutOfMemory
            → MissesLast writer.old lines.old.pending self.old writer.new }
        ensures neither { IfErr result (λ fault. fault ≢ SimFault.Read) }
    {
        if !lines.take_rest() {
            return Ok(());
        }
        self.answer_line(lines.line(), writer)?;
        self.flush(writer)
    }
}

/// Returns a reader of lines that has read nothing yet.
fn line_reader<A: Allocator + Clone + Copy>(alloc: A) -> Result<LineReader<A>, AllocError>
    ensures { IfOk result (λ lines. lines ≡ record { pending = []; line = []; bound = LINE_BOUND }) }
{
    LineReader::new(alloc, LINE_BOUND)
}

/// Answers the lines of a reader up to the first one that is refused.
pub fn answer_lines<A: Allocator + Clone + Copy, D: Read, W: Write>(
    alloc: A,
    reader: &mut Input<D>,
    writer: &mut Output<W>,
) -> Result<(), SimFault>
    // If it succeeds, the whole input was read, no line is refused, and the answer to each line is written. No device
    // failed.
    ensures all { OnOk result (AnswersAll reader.old writer.old writer.new) }
    ensures end { OnOk result (IsRead reader.new) }
    ensures works { OnOk result (Works reader.old reader.new × Works writer.old writer.new) }

    // If a line is refused, the answer to each line before it is written, and not much more is read. No device failed.
    ensures refused { IfRefused result (λ number why.
        AnswersUpTo reader.old reader.new writer.old writer.new (at_line number why)) }
    ensures refused_works { IfRefused result (λ _ _.
        Works reader.old reader.new × Works writer.old writer.new) }

    // If memory is missing, either nothing was read and written, or it ran out at a line of a suite. In that case the
    // answer to each line before that one is written.
    ensures memory { IsErrOf result SimFault.OutOfMemory
        → LacksMemory reader.old reader.new writer.old writer.new }

    // If the reader fails, the answer to each whole line that was read is written. If the writer fails, it wrote a
    // prefix of the answer to what was read.
    ensures read { IsErrOf result SimFault.Read
        → Fails reader.old reader.new × AnswersWholeLines reader.old reader.new writer.old writer.new }
    ensures write { IsErrOf result SimFault.Write
        → Fails writer.old writer.new × AnswersFront reader.old reader.new writer.old writer.new }
{
    let Ok(mut lines) = line_reader(alloc) else {
        return Err(SimFault::OutOfMemory);
    };
    let mut session = Session::new(alloc);
    'reads: loop {
        session.answer_pending(&mut lines, writer)?;
        match lines.fill(reader) {
            Ok(true) => {}
            Ok(false) => return session.answer_rest(&mut lines, writer),
            Err(LineFault::TooLong) => {
                return Err(SimFault::Refused {
                    line: session.count + 1,
                    why: Why::Line,
                });
            }
            Err(LineFault::Read) => return Err(SimFault::Read),
        }
    }
}

//! The machine tin32.

/// What the instructions of tin32 do.
pub const TIN32_LRTL: &[u8] =
    b"// tin32: a machine of 32 bits with one instruction for each operation that a compiler needs. It is no real processor.
machine tin32;

// The width of a word in bits, and the order of the bytes of a word in memory.
word 32;
byteorder little;

// Each instruction has a multiple of 8 bytes. A constant offset from the frame register has 32 bits.
align 8;
slotbits 32;

// The bytes of memory, and where the code region and the data region end. The code region begins at 0, and the data
// region where the code region ends.
memory 0x1000000;
code 0x80000;
data 0x800000;

// The registers. r[14] holds the address of the current frame, r[15] the address to return to.
space r 16 cells 32 bits;
frame r 14;
link r 15;
allocatable r 0 .. 13;

// What several instructions share. A parameter with / 2 stands for a function or an operator of two arguments, one with
// / 1 for one of one argument.
eff unary(operator / 1, d, a) = d := operator(a);
eff binary(operator / 2, d, a, b) = d := operator(a, b);

// A comparison gives one bit, and zx extends it with zeros.
eff set(comparison / 2, d, a, b) = d := zx 32 (comparison(a, b));
eff branch(comparison / 2, a, b, t) = when comparison(a, b) => pc := t;

// The address of a slot in the current frame.
fun slot(offset) = add(r[14], offset);

// Moves
instr move(d: r, a: r) = d := a;
instr const(d: r, k: imm 32) = d := k;

// Arithmetic, logic and shifts
instr add(d: r, a: r, b: r) = binary(add, d, a, b);
instr sub(d: r, a: r, b: r) = binary(sub, d, a, b);
instr neg(d: r, a: r) = unary(neg, d, a);
instr and(d: r, a: r, b: r) = binary(and, d, a, b);
instr or(d: r, a: r, b: r) = binary(or, d, a, b);
instr xor(d: r, a: r, b: r) = binary(xor, d, a, b);
instr com(d: r, a: r) = unary(com, d, a);
instr shl(d: r, a: r, b: r) = binary(shl, d, a, b);
instr shrl(d: r, a: r, b: r) = binary(shrl, d, a, b);
instr shra(d: r, a: r, b: r) = binary(shra, d, a, b);

// Comparisons whose result is the word 1 or 0
instr seteq(d: r, a: r, b: r) = set(eq, d, a, b);
instr setne(d: r, a: r, b: r) = set(ne, d, a, b);
instr setlt(d: r, a: r, b: r) = set(lt, d, a, b);
instr setltu(d: r, a: r, b: r) = set(ltu, d, a, b);

// Conditional branches
instr breq(a: r, b: r, t: addr) = branch(eq, a, b, t);
instr brne(a: r, b: r, t: addr) = branch(ne, a, b, t);
instr brlt(a: r, b: r, t: addr) = branch(lt, a, b, t);
instr brge(a: r, b: r, t: addr) = branch(ge, a, b, t);
instr brltu(a: r, b: r, t: addr) = branch(ltu, a, b, t);
instr brgeu(a: r, b: r, t: addr) = branch(geu, a, b, t);

// Loads and stores of 8, 16 and 32 bits
instr ldb(d: r, a: r) = d := zx 32 (mem 8 [a]);
instr ldh(d: r, a: r) = d := zx 32 (mem 16 [a]);
instr ldw(d: r, a: r) = d := mem 32 [a];
instr stb(a: r, s: r) = mem 8 [a] := slice 0 8 (s);
instr sth(a: r, s: r) = mem 16 [a] := slice 0 16 (s);
instr stw(a: r, s: r) = mem 32 [a] := s;

// Jumps, calls and returns. The effects of an instruction, with | between them, take place at once. after stands for
// the address of the next instruction.
instr goto(t: addr) = pc := t;
instr call(t: addr) = r[15] := after | pc := t;
instr ret() = pc := and(r[15], 0xFFFFFFF8'32);

// The frame: its slots, and the register with its address
instr savelink(k: imm 32) = mem 32 [slot(k)] := r[15];
instr loadlink(k: imm 32) = r[15] := mem 32 [slot(k)];
instr spill(a: r, k: imm 32) = mem 32 [slot(k)] := a;
instr reload(d: r, k: imm 32) = d := mem 32 [slot(k)];
instr op_frame(k: imm 32) = r[14] := add(r[14], k);

// Input, output and the two ways to end. The words out, halt, trap and frame are reserved, hence the longer names.
instr in(d: r) = d := input;
instr op_out(a: r) = out := a;
instr op_halt(a: r) = halt := a;
instr op_trap(k: imm 8) = trap := k;

// Multiplication and division: divu and modu without sign, quot and rem with sign
instr mul(d: r, a: r, b: r) = binary(mul, d, a, b);
instr divu(d: r, a: r, b: r) = binary(divu, d, a, b);
instr modu(d: r, a: r, b: r) = binary(modu, d, a, b);
instr quot(d: r, a: r, b: r) = binary(quot, d, a, b);
instr rem(d: r, a: r, b: r) = binary(rem, d, a, b);
";

/// The codes of the instructions of tin32.
pub const TIN32_SLED: &[u8] =
    b"// The codes of the instructions of tin32. Each instruction has two tokens of 32 bits.
coding tin32

// The first token has the number of the instruction and up to three registers.
fields registers 32 (op 7:0, a 11:8, b 15:12, c 19:16, rest 31:20)

// The second token has a constant or the address of a target. low and high are parts of it, for a constant of 8 bits.
fields constant 32 (imm 31:0, low 7:0, high 31:8)

// Registers that are not used are coded as 0. A conjunction of these fields and of those in a constructor has to set
// each bit of the token exactly once.
pattern three is rest = 0
pattern two is c = 0 & three
pattern one is b = 0 & two
pattern none is a = 0 & one

// The second token of instructions without a constant and without a target
pattern no_constant is imm = 0

// In a conjunct such as a = d the left side is a field of the token, the right side an operand of the instruction.

// Moves
constructor move(d, a) is op = 1 & a = d & b = a & two; no_constant
constructor const(d, k) is op = 2 & a = d & one; imm = k

// Arithmetic, logic and shifts
constructor add(d, a, b) is op = 3 & a = d & b = a & c = b & three; no_constant
constructor sub(d, a, b) is op = 4 & a = d & b = a & c = b & three; no_constant
constructor neg(d, a) is op = 5 & a = d & b = a & two; no_constant
constructor and(d, a, b) is op = 6 & a = d & b = a & c = b & three; no_constant
constructor or(d, a, b) is op = 7 & a = d & b = a & c = b & three; no_constant
constructor xor(d, a, b) is op = 8 & a = d & b = a & c = b & three; no_constant
constructor com(d, a) is op = 9 & a = d & b = a & two; no_constant
constructor shl(d, a, b) is op = 10 & a = d & b = a & c = b & three; no_constant
constructor shrl(d, a, b) is op = 11 & a = d & b = a & c = b & three; no_constant
constructor shra(d, a, b) is op = 12 & a = d & b = a & c = b & three; no_constant

// Comparisons whose result is the word 1 or 0
constructor seteq(d, a, b) is op = 13 & a = d & b = a & c = b & three; no_constant
constructor setne(d, a, b) is op = 14 & a = d & b = a & c = b & three; no_constant
constructor setlt(d, a, b) is op = 15 & a = d & b = a & c = b & three; no_constant
constructor setltu(d, a, b) is op = 16 & a = d & b = a & c = b & three; no_constant

// Conditional branches. With abs 32 the target's address stands in the code, as a number of 32 bits.
constructor breq(a, b, t: abs 32) is op = 17 & a = a & b = b & two; imm = t
constructor brne(a, b, t: abs 32) is op = 18 & a = a & b = b & two; imm = t
constructor brlt(a, b, t: abs 32) is op = 19 & a = a & b = b & two; imm = t
constructor brge(a, b, t: abs 32) is op = 20 & a = a & b = b & two; imm = t
constructor brltu(a, b, t: abs 32) is op = 21 & a = a & b = b & two; imm = t
constructor brgeu(a, b, t: abs 32) is op = 22 & a = a & b = b & two; imm = t

// Loads and stores of 8, 16 and 32 bits
constructor ldb(d, a) is op = 23 & a = d & b = a & two; no_constant
constructor ldh(d, a) is op = 24 & a = d & b = a & two; no_constant
constructor ldw(d, a) is op = 25 & a = d & b = a & two; no_constant
constructor stb(a, s) is op = 26 & a = a & b = s & two; no_constant
constructor sth(a, s) is op = 27 & a = a & b = s & two; no_constant
constructor stw(a, s) is op = 28 & a = a & b = s & two; no_constant

// Jumps, calls and returns
constructor goto(t: abs 32) is op = 29 & none; imm = t
constructor call(t: abs 32) is op = 30 & none; imm = t
constructor ret() is op = 31 & none; no_constant

// The frame: its slots, and the register with its address
constructor savelink(k) is op = 32 & none; imm = k
constructor loadlink(k) is op = 33 & none; imm = k
constructor spill(a, k) is op = 34 & a = a & one; imm = k
constructor reload(d, k) is op = 35 & a = d & one; imm = k
constructor op_frame(k) is op = 36 & none; imm = k

// Input, output and the two ways to end
constructor in(d) is op = 37 & a = d & one; no_constant
constructor op_out(a) is op = 38 & a = a & one; no_constant
constructor op_halt(a) is op = 39 & a = a & one; no_constant
constructor op_trap(k) is op = 40 & none; low = k & high = 0

// Multiplication and division
constructor mul(d, a, b) is op = 41 & a = d & b = a & c = b & three; no_constant
constructor divu(d, a, b) is op = 42 & a = d & b = a & c = b & three; no_constant
constructor modu(d, a, b) is op = 43 & a = d & b = a & c = b & three; no_constant
constructor quot(d, a, b) is op = 44 & a = d & b = a & c = b & three; no_constant
constructor rem(d, a, b) is op = 45 & a = d & b = a & c = b & three; no_constant
";

//! The machine cc16.

/// What the instructions of cc16 do.
pub const CC16_LRTL: &[u8] =
    b"// cc16: a machine of 16 bits with two operands in an instruction and with condition codes. It is no real processor.
machine cc16;

// The width of a word in bits, and the order of the bytes of a word in memory.
word 16;
byteorder big;

// Each instruction has a multiple of 2 bytes. A constant offset from the frame register has 16 bits.
align 2;
slotbits 16;

// The bytes of memory, and where the code region and the data region end. The code region begins at 0, and the data
// region where the code region ends.
memory 0x10000;
code 0x6000;
data 0xC000;

// The registers. r[6] holds the address to return to, r[7] that of the current frame.
space r 8 cells 16 bits;
link r 6;
frame r 7;
allocatable r 0 .. 5;

// The condition codes, which cmp sets: f[0] for equal, f[1] for less with sign, f[2] for less without sign.
space f 3 cells 1 bits flags;

// What several instructions share. A parameter with / 2 stands for a function or an operator of two arguments.
eff binary(operator / 2, a, b) = a := operator(a, b);

// A condition has one bit. As a guard it decides whether an effect takes place, and zx extends it with zeros.
eff branch(condition, t) = when condition => pc := t;
eff set(a, condition) = a := zx 16 (condition);

// The address of a slot in the current frame.
fun slot(offset) = add(r[7], offset);

// Moves
instr mov(a: r, b: r) = a := b;
instr ldi(a: r, i: imm 16) = a := i;

// Arithmetic, logic and shifts. The first operand is also the destination.
instr add(a: r, b: r) = binary(add, a, b);
instr sub(a: r, b: r) = binary(sub, a, b);
instr and(a: r, b: r) = binary(and, a, b);
instr or(a: r, b: r) = binary(or, a, b);
instr xor(a: r, b: r) = binary(xor, a, b);
instr shl(a: r, b: r) = binary(shl, a, b);
instr shr(a: r, b: r) = binary(shrl, a, b);
instr sar(a: r, b: r) = binary(shra, a, b);
instr not(a: r) = a := com(a);

// A comparison, and the branches on its condition codes. All effects of an instruction take place at once.
instr cmp(a: r, b: r) = f[0] := eq(a, b) | f[1] := lt(a, b) | f[2] := ltu(a, b);
instr bz(t: addr) = branch(f[0], t);
instr bnz(t: addr) = branch(com(f[0]), t);
instr bl(t: addr) = branch(f[1], t);
instr bnl(t: addr) = branch(com(f[1]), t);
instr blo(t: addr) = branch(f[2], t);
instr bnlo(t: addr) = branch(com(f[2]), t);

// Condition codes as the word 1 or 0
instr sz(a: r) = set(a, f[0]);
instr snz(a: r) = set(a, com(f[0]));
instr sl(a: r) = set(a, f[1]);
instr slo(a: r) = set(a, f[2]);

// Loads and stores of 8 and 16 bits
instr lb(a: r, b: r) = a := zx 16 (mem 8 [b]);
instr lw(a: r, b: r) = a := mem 16 [b];
instr sb(a: r, b: r) = mem 8 [b] := slice 0 8 (a);
instr sw(a: r, b: r) = mem 16 [b] := a;

// The frame: its slots, and the register with its address
instr lds(a: r, i: imm 16) = a := mem 16 [slot(i)];
instr sts(a: r, i: imm 16) = mem 16 [slot(i)] := a;
instr adds(i: imm 16) = r[7] := add(r[7], i);

// Jumps, calls and returns. after stands for the address of the next instruction.
instr jmp(t: addr) = pc := t;
instr jsr(t: addr) = r[6] := after | pc := t;
instr rts() = pc := and(r[6], 0xFFFE'16);

// Input, output and the two ways to end
instr inp(a: r) = a := input;
instr outp(a: r) = out := a;
instr hlt(a: r) = halt := a;
instr trp(i: imm 8) = trap := i;
";

/// The codes of the instructions of cc16.
pub const CC16_SLED: &[u8] =
    b"// The codes of the instructions of cc16. Each instruction has one token of 16 bits, or two.
coding cc16

// The first token has the number of the instruction and up to two registers.
fields registers 16 (op 15:10, a 9:7, b 6:4, rest 3:0)

// The second token has a constant or a target. low and high are parts of it, for a constant of 8 bits.
fields constant 16 (value 15:0, low 7:0, high 15:8)

// Registers that are not used are coded as 0. A conjunction of these fields and of those in a constructor has to set
// each bit of the token exactly once.
pattern two is rest = 0
pattern one is b = 0 & two
pattern none is a = 0 & one

// In a conjunct such as a = a the left side is a field of the token, the right side an operand of the instruction.

// Moves
constructor mov(a, b) is op = 1 & a = a & b = b & two
constructor ldi(a, i) is op = 2 & a = a & one; value = i

// Arithmetic, logic and shifts
constructor add(a, b) is op = 3 & a = a & b = b & two
constructor sub(a, b) is op = 4 & a = a & b = b & two
constructor and(a, b) is op = 5 & a = a & b = b & two
constructor or(a, b) is op = 6 & a = a & b = b & two
constructor xor(a, b) is op = 7 & a = a & b = b & two
constructor shl(a, b) is op = 8 & a = a & b = b & two
constructor shr(a, b) is op = 9 & a = a & b = b & two
constructor sar(a, b) is op = 10 & a = a & b = b & two
constructor not(a) is op = 11 & a = a & one

// A comparison, and the branches on its condition codes. With rel 16 the code has the distance from the instruction to
// its target, a number with sign.
constructor cmp(a, b) is op = 12 & a = a & b = b & two
constructor bz(t: rel 16) is op = 13 & none; value = t
constructor bnz(t: rel 16) is op = 14 & none; value = t
constructor bl(t: rel 16) is op = 15 & none; value = t
constructor bnl(t: rel 16) is op = 16 & none; value = t
constructor blo(t: rel 16) is op = 17 & none; value = t
constructor bnlo(t: rel 16) is op = 18 & none; value = t

// Condition codes as the word 1 or 0
constructor sz(a) is op = 19 & a = a & one
constructor snz(a) is op = 20 & a = a & one
constructor sl(a) is op = 21 & a = a & one
constructor slo(a) is op = 22 & a = a & one

// Loads and stores of 8 and 16 bits
constructor lb(a, b) is op = 23 & a = a & b = b & two
constructor lw(a, b) is op = 24 & a = a & b = b & two
constructor sb(a, b) is op = 25 & a = a & b = b & two
constructor sw(a, b) is op = 26 & a = a & b = b & two

// The frame: its slots, and the register with its address
constructor lds(a, i) is op = 27 & a = a & one; value = i
constructor sts(a, i) is op = 28 & a = a & one; value = i
constructor adds(i) is op = 29 & none; value = i

// Jumps, calls and returns. With abs 16 the target's address stands in the code.
constructor jmp(t: abs 16) is op = 30 & none; value = t
constructor jsr(t: abs 16) is op = 31 & none; value = t
constructor rts() is op = 32 & none

// Input, output and the two ways to end
constructor inp(a) is op = 33 & a = a & one
constructor outp(a) is op = 34 & a = a & one
constructor hlt(a) is op = 35 & a = a & one
constructor trp(i) is op = 36 & none; low = i & high = 0
";

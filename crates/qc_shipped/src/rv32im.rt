//! The machine rv32im.

/// What the instructions of rv32im do.
pub const RV32IM_LRTL: &[u8] =
    b"// rv32im: the instructions of RISC-V's RV32I and M that a compiler needs here, and four more for input, output and the
// end of a run.
machine rv32im;

// The width of a word in bits, and the order of the bytes of a word in memory.
word 32;
byteorder little;

// Each instruction has a multiple of 2 bytes. A constant offset from the frame register has 12 bits.
align 2;
slotbits 12;

// The bytes of memory, and where the code region and the data region end. The code region begins at 0, and the data
// region where the code region ends.
memory 0x1000000;
code 0x80000;
data 0x800000;

// The registers. r[0] is always 0, r[1] holds the address to return to, r[2] that of the current frame. A compiler may
// use r[5] to r[31] for values.
space r 32 cells 32 bits;
zero r 0;
link r 1;
frame r 2;
allocatable r 5 .. 31;

// What several instructions share. A parameter with / 2 stands for a function or an operator of two arguments.

// A constant of fewer bits is extended with copies of its sign bit.
fun signed(i) = sx 32 (i);
fun address(rs1, i) = add(rs1, signed(i));

// A comparison gives one bit, and zx extends it with zeros.
fun less(a, b) = zx 32 (lt(a, b));
fun less_unsigned(a, b) = zx 32 (ltu(a, b));

eff register(operator / 2, rd, rs1, rs2) = rd := operator(rs1, rs2);
eff immediate(operator / 2, rd, rs1, i) = rd := operator(rs1, signed(i));
eff shift(operator / 2, rd, rs1, s) = rd := operator(rs1, zx 32 (s));
eff branch(comparison / 2, rs1, rs2, t) = when comparison(rs1, rs2) => pc := t;

// The upper 20 bits of a word
instr lui(rd: r, i: imm 20) = rd := shl(zx 32 (i), 12'32);

// Jumps, which keep the address of the next instruction in rd
instr jal(rd: r, t: addr) = rd := after | pc := t;
instr jalr(rd: r, rs1: r, i: imm 12) = rd := after | pc := and(address(rs1, i), 0xFFFFFFFE'32);

// Conditional branches
instr beq(rs1: r, rs2: r, t: addr) = branch(eq, rs1, rs2, t);
instr bne(rs1: r, rs2: r, t: addr) = branch(ne, rs1, rs2, t);
instr blt(rs1: r, rs2: r, t: addr) = branch(lt, rs1, rs2, t);
instr bge(rs1: r, rs2: r, t: addr) = branch(ge, rs1, rs2, t);
instr bltu(rs1: r, rs2: r, t: addr) = branch(ltu, rs1, rs2, t);
instr bgeu(rs1: r, rs2: r, t: addr) = branch(geu, rs1, rs2, t);

// Loads of 8, 16 and 32 bits, extended with the sign or with zeros
instr lb(rd: r, rs1: r, i: imm 12) = rd := sx 32 (mem 8 [address(rs1, i)]);
instr lh(rd: r, rs1: r, i: imm 12) = rd := sx 32 (mem 16 [address(rs1, i)]);
instr lw(rd: r, rs1: r, i: imm 12) = rd := mem 32 [address(rs1, i)];
instr lbu(rd: r, rs1: r, i: imm 12) = rd := zx 32 (mem 8 [address(rs1, i)]);
instr lhu(rd: r, rs1: r, i: imm 12) = rd := zx 32 (mem 16 [address(rs1, i)]);

// Stores of the lowest 8 and 16 bits of rs2, and of the whole of it
instr sb(rs1: r, rs2: r, i: imm 12) = mem 8 [address(rs1, i)] := slice 0 8 (rs2);
instr sh(rs1: r, rs2: r, i: imm 12) = mem 16 [address(rs1, i)] := slice 0 16 (rs2);
instr sw(rs1: r, rs2: r, i: imm 12) = mem 32 [address(rs1, i)] := rs2;

// A register and a constant
instr addi(rd: r, rs1: r, i: imm 12) = immediate(add, rd, rs1, i);
instr slti(rd: r, rs1: r, i: imm 12) = immediate(less, rd, rs1, i);
instr sltiu(rd: r, rs1: r, i: imm 12) = immediate(less_unsigned, rd, rs1, i);
instr xori(rd: r, rs1: r, i: imm 12) = immediate(xor, rd, rs1, i);
instr ori(rd: r, rs1: r, i: imm 12) = immediate(or, rd, rs1, i);
instr andi(rd: r, rs1: r, i: imm 12) = immediate(and, rd, rs1, i);

// Shifts by a constant
instr slli(rd: r, rs1: r, s: imm 5) = shift(shl, rd, rs1, s);
instr srli(rd: r, rs1: r, s: imm 5) = shift(shrl, rd, rs1, s);
instr srai(rd: r, rs1: r, s: imm 5) = shift(shra, rd, rs1, s);

// Two registers. The shifts use rs2 modulo 32.
instr add(rd: r, rs1: r, rs2: r) = register(add, rd, rs1, rs2);
instr sub(rd: r, rs1: r, rs2: r) = register(sub, rd, rs1, rs2);
instr sll(rd: r, rs1: r, rs2: r) = register(shl, rd, rs1, rs2);
instr slt(rd: r, rs1: r, rs2: r) = register(less, rd, rs1, rs2);
instr sltu(rd: r, rs1: r, rs2: r) = register(less_unsigned, rd, rs1, rs2);
instr xor(rd: r, rs1: r, rs2: r) = register(xor, rd, rs1, rs2);
instr srl(rd: r, rs1: r, rs2: r) = register(shrl, rd, rs1, rs2);
instr sra(rd: r, rs1: r, rs2: r) = register(shra, rd, rs1, rs2);
instr or(rd: r, rs1: r, rs2: r) = register(or, rd, rs1, rs2);
instr and(rd: r, rs1: r, rs2: r) = register(and, rd, rs1, rs2);

// Multiplication and division, with sign but for divu and remu
instr mul(rd: r, rs1: r, rs2: r) = register(mul, rd, rs1, rs2);
instr div(rd: r, rs1: r, rs2: r) = register(quot, rd, rs1, rs2);
instr divu(rd: r, rs1: r, rs2: r) = register(divu, rd, rs1, rs2);
instr rem(rd: r, rs1: r, rs2: r) = register(rem, rd, rs1, rs2);
instr remu(rd: r, rs1: r, rs2: r) = register(modu, rd, rs1, rs2);

// Output, input and the two ways to end, which are no part of RISC-V. The words out, halt and trap are reserved, hence
// the longer names.
instr op_out(rs1: r) = out := rs1;
instr in(rd: r) = rd := input;
instr op_halt(rs1: r) = halt := rs1;
instr op_trap(c: imm 8) = trap := c;
";

/// The codes of the instructions of rv32im.
pub const RV32IM_SLED: &[u8] =
    b"// The codes of the instructions of rv32im. Each instruction has one token of 32 bits.
coding rv32im

// Fields of one token may overlap: each instruction uses those that it needs, so that each bit is set exactly once.
fields instruction 32 (
  opcode 6:0, rd 11:7, funct3 14:12, rs1 19:15, rs2 24:20, funct7 31:25,

  // a constant of 20 bits, one of 12 bits, and the number of bits of a shift
  upper 31:12, immediate 31:20, shift 24:20,

  // the parts of a target's distance: those of branches, and those of jal
  bit31 31:31, bits30_25 30:25, bits11_8 11:8, bit7 7:7,
  bits30_21 30:21, bit20 20:20, bits19_12 19:12,

  // the code of a trap, and the bits above it
  trap_code 27:20, bits31_28 31:28
)

// The opcodes
pattern load is opcode = 0x03
pattern custom is opcode = 0x0B
pattern op_immediate is opcode = 0x13
pattern store is opcode = 0x23
pattern op is opcode = 0x33
pattern load_upper is opcode = 0x37
pattern branch is opcode = 0x63
pattern jump_register is opcode = 0x67
pattern jump is opcode = 0x6F

// The instructions of the same opcode and funct3 differ in funct7.
pattern base is op & funct7 = 0
pattern alternate is op & funct7 = 0x20
pattern muldiv is op & funct7 = 1

// In a conjunct such as rd = rd the left side is a field of the token, the right side an operand of the instruction.

// The upper 20 bits of a word
constructor lui(rd, i) is load_upper & rd = rd & upper = i

// Jumps. With rel 21 the code has the distance from the instruction to its target, a number with sign. Its lowest bit
// is always 0 and has no place in the code. A part of an operand is written with its bits in braces.
constructor jal(rd, t: rel 21) is
  jump & rd = rd & bit31 = t{20..20} & bits30_21 = t{10..1} & bit20 = t{11..11} & bits19_12 = t{19..12}
constructor jalr(rd, rs1, i) is jump_register & funct3 = 0 & rd = rd & rs1 = rs1 & immediate = i

// Conditional branches
constructor beq(rs1, rs2, t: rel 13) is branch & funct3 = 0 & rs1 = rs1 & rs2 = rs2
  & bit31 = t{12..12} & bits30_25 = t{10..5} & bits11_8 = t{4..1} & bit7 = t{11..11}
constructor bne(rs1, rs2, t: rel 13) is branch & funct3 = 1 & rs1 = rs1 & rs2 = rs2
  & bit31 = t{12..12} & bits30_25 = t{10..5} & bits11_8 = t{4..1} & bit7 = t{11..11}
constructor blt(rs1, rs2, t: rel 13) is branch & funct3 = 4 & rs1 = rs1 & rs2 = rs2
  & bit31 = t{12..12} & bits30_25 = t{10..5} & bits11_8 = t{4..1} & bit7 = t{11..11}
constructor bge(rs1, rs2, t: rel 13) is branch & funct3 = 5 & rs1 = rs1 & rs2 = rs2
  & bit31 = t{12..12} & bits30_25 = t{10..5} & bits11_8 = t{4..1} & bit7 = t{11..11}
constructor bltu(rs1, rs2, t: rel 13) is branch & funct3 = 6 & rs1 = rs1 & rs2 = rs2
  & bit31 = t{12..12} & bits30_25 = t{10..5} & bits11_8 = t{4..1} & bit7 = t{11..11}
constructor bgeu(rs1, rs2, t: rel 13) is branch & funct3 = 7 & rs1 = rs1 & rs2 = rs2
  & bit31 = t{12..12} & bits30_25 = t{10..5} & bits11_8 = t{4..1} & bit7 = t{11..11}

// Loads
constructor lb(rd, rs1, i) is load & funct3 = 0 & rd = rd & rs1 = rs1 & immediate = i
constructor lh(rd, rs1, i) is load & funct3 = 1 & rd = rd & rs1 = rs1 & immediate = i
constructor lw(rd, rs1, i) is load & funct3 = 2 & rd = rd & rs1 = rs1 & immediate = i
constructor lbu(rd, rs1, i) is load & funct3 = 4 & rd = rd & rs1 = rs1 & immediate = i
constructor lhu(rd, rs1, i) is load & funct3 = 5 & rd = rd & rs1 = rs1 & immediate = i

// Stores. The constant stands in two parts, so that the registers keep their places.
constructor sb(rs1, rs2, i) is store & funct3 = 0 & rs1 = rs1 & rs2 = rs2 & funct7 = i{11..5} & rd = i{4..0}
constructor sh(rs1, rs2, i) is store & funct3 = 1 & rs1 = rs1 & rs2 = rs2 & funct7 = i{11..5} & rd = i{4..0}
constructor sw(rs1, rs2, i) is store & funct3 = 2 & rs1 = rs1 & rs2 = rs2 & funct7 = i{11..5} & rd = i{4..0}

// A register and a constant
constructor addi(rd, rs1, i) is op_immediate & funct3 = 0 & rd = rd & rs1 = rs1 & immediate = i
constructor slti(rd, rs1, i) is op_immediate & funct3 = 2 & rd = rd & rs1 = rs1 & immediate = i
constructor sltiu(rd, rs1, i) is op_immediate & funct3 = 3 & rd = rd & rs1 = rs1 & immediate = i
constructor xori(rd, rs1, i) is op_immediate & funct3 = 4 & rd = rd & rs1 = rs1 & immediate = i
constructor ori(rd, rs1, i) is op_immediate & funct3 = 6 & rd = rd & rs1 = rs1 & immediate = i
constructor andi(rd, rs1, i) is op_immediate & funct3 = 7 & rd = rd & rs1 = rs1 & immediate = i

// Shifts by a constant
constructor slli(rd, rs1, s) is op_immediate & funct3 = 1 & funct7 = 0 & rd = rd & rs1 = rs1 & shift = s
constructor srli(rd, rs1, s) is op_immediate & funct3 = 5 & funct7 = 0 & rd = rd & rs1 = rs1 & shift = s
constructor srai(rd, rs1, s) is op_immediate & funct3 = 5 & funct7 = 0x20 & rd = rd & rs1 = rs1 & shift = s

// Two registers
constructor add(rd, rs1, rs2) is base & funct3 = 0 & rd = rd & rs1 = rs1 & rs2 = rs2
constructor sub(rd, rs1, rs2) is alternate & funct3 = 0 & rd = rd & rs1 = rs1 & rs2 = rs2
constructor sll(rd, rs1, rs2) is base & funct3 = 1 & rd = rd & rs1 = rs1 & rs2 = rs2
constructor slt(rd, rs1, rs2) is base & funct3 = 2 & rd = rd & rs1 = rs1 & rs2 = rs2
constructor sltu(rd, rs1, rs2) is base & funct3 = 3 & rd = rd & rs1 = rs1 & rs2 = rs2
constructor xor(rd, rs1, rs2) is base & funct3 = 4 & rd = rd & rs1 = rs1 & rs2 = rs2
constructor srl(rd, rs1, rs2) is base & funct3 = 5 & rd = rd & rs1 = rs1 & rs2 = rs2
constructor sra(rd, rs1, rs2) is alternate & funct3 = 5 & rd = rd & rs1 = rs1 & rs2 = rs2
constructor or(rd, rs1, rs2) is base & funct3 = 6 & rd = rd & rs1 = rs1 & rs2 = rs2
constructor and(rd, rs1, rs2) is base & funct3 = 7 & rd = rd & rs1 = rs1 & rs2 = rs2

// Multiplication and division
constructor mul(rd, rs1, rs2) is muldiv & funct3 = 0 & rd = rd & rs1 = rs1 & rs2 = rs2
constructor div(rd, rs1, rs2) is muldiv & funct3 = 4 & rd = rd & rs1 = rs1 & rs2 = rs2
constructor divu(rd, rs1, rs2) is muldiv & funct3 = 5 & rd = rd & rs1 = rs1 & rs2 = rs2
constructor rem(rd, rs1, rs2) is muldiv & funct3 = 6 & rd = rd & rs1 = rs1 & rs2 = rs2
constructor remu(rd, rs1, rs2) is muldiv & funct3 = 7 & rd = rd & rs1 = rs1 & rs2 = rs2

// Output, input and the two ways to end, with the opcode 0x0B, which RISC-V leaves to such uses
constructor op_out(rs1) is custom & funct3 = 0 & rd = 0 & rs1 = rs1 & immediate = 0
constructor in(rd) is custom & funct3 = 1 & rd = rd & rs1 = 0 & immediate = 0
constructor op_halt(rs1) is custom & funct3 = 2 & rd = 0 & rs1 = rs1 & immediate = 0
constructor op_trap(c) is custom & funct3 = 3 & rd = 0 & rs1 = 0 & trap_code = c & bits31_28 = 0
";

//! The texts of the designs of `examples/`.

/// A design of `examples/`.
#[derive(Clone, Copy, Debug)]
pub enum Example {
    /// `seq.hcl`: SEQ.
    Seq,
    /// `seq_plus.hcl`: SEQ+, the sequential datapath that computes the PC at the beginning of a cycle.
    Sp,
    /// `std.hcl`: PIPE.
    Std,
    /// `no_bypassing.hcl`: PIPE without bypassing.
    Nb,
    /// `load_forwarding.hcl`: PIPE with load forwarding.
    Lf,
    /// `not_taken.hcl`: PIPE with conditional jumps predicted not taken.
    Nt,
    /// `backward_taken.hcl`: PIPE with backward jumps predicted taken, forward ones not.
    Bt,
    /// `with_iaddq.hcl`: PIPE with `iaddq`.
    Fu,
}

impl Example {
    /// The text of its file.
    pub fn text(self) -> &'static [u8] {
        match self {
            Example::Seq => SEQ,
            Example::Sp => SP,
            Example::Std => STD,
            Example::Nb => NB,
            Example::Lf => LF,
            Example::Nt => NT,
            Example::Bt => BT,
            Example::Fu => FU,
        }
    }
}

const SEQ: &[u8] =
    b"# SEQ, which runs an instruction in each cycle (CS:APP 3e, section 4.3, figure 4.23).
word icode = [ imem_error : INOP; 1 : imem_icode; ];
word ifun = [ imem_error : FNONE; 1 : imem_ifun; ];
bool instr_valid = icode in { INOP, IHALT, IRRMOVQ, IIRMOVQ, IRMMOVQ, IMRMOVQ,
  IOPQ, IJXX, ICALL, IRET, IPUSHQ, IPOPQ };
bool need_regids = icode in { IRRMOVQ, IOPQ, IPUSHQ, IPOPQ, IIRMOVQ, IRMMOVQ, IMRMOVQ };
bool need_valC = icode in { IIRMOVQ, IRMMOVQ, IMRMOVQ, IJXX, ICALL };
word srcA = [ icode in { IRRMOVQ, IRMMOVQ, IOPQ, IPUSHQ } : rA;
  icode in { IPOPQ, IRET } : RRSP; 1 : RNONE; ];
word srcB = [ icode in { IOPQ, IRMMOVQ, IMRMOVQ } : rB;
  icode in { IPUSHQ, IPOPQ, ICALL, IRET } : RRSP; 1 : RNONE; ];
word dstE = [ icode == IRRMOVQ && Cnd : rB; icode in { IIRMOVQ, IOPQ } : rB;
  icode in { IPUSHQ, IPOPQ, ICALL, IRET } : RRSP; 1 : RNONE; ];
word dstM = [ icode in { IMRMOVQ, IPOPQ } : rA; 1 : RNONE; ];
word aluA = [ icode in { IRRMOVQ, IOPQ } : valA; icode in { IIRMOVQ, IRMMOVQ, IMRMOVQ } : valC;
  icode in { ICALL, IPUSHQ } : -8; icode in { IRET, IPOPQ } : 8; ];
word aluB = [ icode in { IRMMOVQ, IMRMOVQ, IOPQ, ICALL, IPUSHQ, IRET, IPOPQ } : valB;
  icode in { IRRMOVQ, IIRMOVQ } : 0; ];
word alufun = [ icode == IOPQ : ifun; 1 : ALUADD; ];
bool set_cc = icode == IOPQ;
word mem_addr = [ icode in { IRMMOVQ, IPUSHQ, ICALL, IMRMOVQ } : valE;
  icode in { IPOPQ, IRET } : valA; ];
bool mem_read = icode in { IMRMOVQ, IPOPQ, IRET };
bool mem_write = icode in { IRMMOVQ, IPUSHQ, ICALL };
word mem_data = [ icode in { IRMMOVQ, IPUSHQ } : valA; icode == ICALL : valP; ];
word Stat = [ imem_error || dmem_error : SADR; !instr_valid : SINS; icode == IHALT : SHLT; 1 : SAOK; ];
word new_pc = [ icode == ICALL : valC; icode == IJXX && Cnd : valC; icode == IRET : valM; 1 : valP; ];
";

const SP: &[u8] =
    b"# SEQ+, which computes the PC as a cycle begins, from what the instruction before left (CS:APP 3e, section 4.5.1, figure 4.40).
word pc = [ pIcode == ICALL : pValC; pIcode == IJXX && pCnd : pValC; pIcode == IRET : pValM; 1 : pValP; ];
word icode = [ imem_error : INOP; 1 : imem_icode; ];
word ifun = [ imem_error : FNONE; 1 : imem_ifun; ];
bool instr_valid = icode in { INOP, IHALT, IRRMOVQ, IIRMOVQ, IRMMOVQ, IMRMOVQ,
  IOPQ, IJXX, ICALL, IRET, IPUSHQ, IPOPQ };
bool need_regids = icode in { IRRMOVQ, IOPQ, IPUSHQ, IPOPQ, IIRMOVQ, IRMMOVQ, IMRMOVQ };
bool need_valC = icode in { IIRMOVQ, IRMMOVQ, IMRMOVQ, IJXX, ICALL };
word srcA = [ icode in { IRRMOVQ, IRMMOVQ, IOPQ, IPUSHQ } : rA;
  icode in { IPOPQ, IRET } : RRSP; 1 : RNONE; ];
word srcB = [ icode in { IOPQ, IRMMOVQ, IMRMOVQ } : rB;
  icode in { IPUSHQ, IPOPQ, ICALL, IRET } : RRSP; 1 : RNONE; ];
word dstE = [ icode == IRRMOVQ && Cnd : rB; icode in { IIRMOVQ, IOPQ } : rB;
  icode in { IPUSHQ, IPOPQ, ICALL, IRET } : RRSP; 1 : RNONE; ];
word dstM = [ icode in { IMRMOVQ, IPOPQ } : rA; 1 : RNONE; ];
word aluA = [ icode in { IRRMOVQ, IOPQ } : valA; icode in { IIRMOVQ, IRMMOVQ, IMRMOVQ } : valC;
  icode in { ICALL, IPUSHQ } : -8; icode in { IRET, IPOPQ } : 8; ];
word aluB = [ icode in { IRMMOVQ, IMRMOVQ, IOPQ, ICALL, IPUSHQ, IRET, IPOPQ } : valB;
  icode in { IRRMOVQ, IIRMOVQ } : 0; ];
word alufun = [ icode == IOPQ : ifun; 1 : ALUADD; ];
bool set_cc = icode == IOPQ;
word mem_addr = [ icode in { IRMMOVQ, IPUSHQ, ICALL, IMRMOVQ } : valE;
  icode in { IPOPQ, IRET } : valA; ];
bool mem_read = icode in { IMRMOVQ, IPOPQ, IRET };
bool mem_write = icode in { IRMMOVQ, IPUSHQ, ICALL };
word mem_data = [ icode in { IRMMOVQ, IPUSHQ } : valA; icode == ICALL : valP; ];
word Stat = [ imem_error || dmem_error : SADR; !instr_valid : SINS; icode == IHALT : SHLT; 1 : SAOK; ];
";

const STD: &[u8] =
    b"# PIPE, the five-stage pipeline with forwarding, stalls for load/use and ret, and conditional jumps predicted
# taken (CS:APP 3e, section 4.5, figures 4.52 to 4.68).
word f_pc = [ M_icode == IJXX && !M_Cnd : M_valA; W_icode == IRET : W_valM; 1 : F_predPC; ];
word f_icode = [ imem_error : INOP; 1 : imem_icode; ];
word f_ifun = [ imem_error : FNONE; 1 : imem_ifun; ];
bool instr_valid = f_icode in { INOP, IHALT, IRRMOVQ, IIRMOVQ, IRMMOVQ, IMRMOVQ,
  IOPQ, IJXX, ICALL, IRET, IPUSHQ, IPOPQ };
word f_stat = [ imem_error : SADR; !instr_valid : SINS; f_icode == IHALT : SHLT; 1 : SAOK; ];
bool need_regids = f_icode in { IRRMOVQ, IOPQ, IPUSHQ, IPOPQ, IIRMOVQ, IRMMOVQ, IMRMOVQ };
bool need_valC = f_icode in { IIRMOVQ, IRMMOVQ, IMRMOVQ, IJXX, ICALL };
word f_predPC = [ f_icode in { IJXX, ICALL } : f_valC; 1 : f_valP; ];
word d_srcA = [ D_icode in { IRRMOVQ, IRMMOVQ, IOPQ, IPUSHQ } : D_rA;
  D_icode in { IPOPQ, IRET } : RRSP; 1 : RNONE; ];
word d_srcB = [ D_icode in { IOPQ, IRMMOVQ, IMRMOVQ } : D_rB;
  D_icode in { IPUSHQ, IPOPQ, ICALL, IRET } : RRSP; 1 : RNONE; ];
word d_dstE = [ D_icode in { IRRMOVQ, IIRMOVQ, IOPQ } : D_rB;
  D_icode in { IPUSHQ, IPOPQ, ICALL, IRET } : RRSP; 1 : RNONE; ];
word d_dstM = [ D_icode in { IMRMOVQ, IPOPQ } : D_rA; 1 : RNONE; ];
word d_valA = [ D_icode in { ICALL, IJXX } : D_valP; d_srcA == e_dstE : e_valE;
  d_srcA == M_dstM : m_valM; d_srcA == M_dstE : M_valE;
  d_srcA == W_dstM : W_valM; d_srcA == W_dstE : W_valE; 1 : d_rvalA; ];
word d_valB = [ d_srcB == e_dstE : e_valE; d_srcB == M_dstM : m_valM; d_srcB == M_dstE : M_valE;
  d_srcB == W_dstM : W_valM; d_srcB == W_dstE : W_valE; 1 : d_rvalB; ];
word aluA = [ E_icode in { IRRMOVQ, IOPQ } : E_valA; E_icode in { IIRMOVQ, IRMMOVQ, IMRMOVQ } : E_valC;
  E_icode in { ICALL, IPUSHQ } : -8; E_icode in { IRET, IPOPQ } : 8; ];
word aluB = [ E_icode in { IRMMOVQ, IMRMOVQ, IOPQ, ICALL, IPUSHQ, IRET, IPOPQ } : E_valB;
  E_icode in { IRRMOVQ, IIRMOVQ } : 0; ];
word alufun = [ E_icode == IOPQ : E_ifun; 1 : ALUADD; ];
bool set_cc = E_icode == IOPQ && !m_stat in { SADR, SINS, SHLT } && !W_stat in { SADR, SINS, SHLT };
word e_valA = E_valA;
word e_dstE = [ E_icode == IRRMOVQ && !e_Cnd : RNONE; 1 : E_dstE; ];
word mem_addr = [ M_icode in { IRMMOVQ, IPUSHQ, ICALL, IMRMOVQ } : M_valE;
  M_icode in { IPOPQ, IRET } : M_valA; ];
bool mem_read = M_icode in { IMRMOVQ, IPOPQ, IRET };
bool mem_write = M_icode in { IRMMOVQ, IPUSHQ, ICALL };
word m_stat = [ dmem_error : SADR; 1 : M_stat; ];
word w_dstE = W_dstE;
word w_valE = W_valE;
word w_dstM = W_dstM;
word w_valM = W_valM;
word Stat = [ W_stat == SBUB : SAOK; 1 : W_stat; ];
bool F_bubble = 0;
bool F_stall = E_icode in { IMRMOVQ, IPOPQ } && E_dstM in { d_srcA, d_srcB }
  || IRET in { D_icode, E_icode, M_icode };
bool D_stall = E_icode in { IMRMOVQ, IPOPQ } && E_dstM in { d_srcA, d_srcB };
bool D_bubble = E_icode == IJXX && !e_Cnd
  || !(E_icode in { IMRMOVQ, IPOPQ } && E_dstM in { d_srcA, d_srcB })
     && IRET in { D_icode, E_icode, M_icode };
bool E_stall = 0;
bool E_bubble = E_icode == IJXX && !e_Cnd
  || E_icode in { IMRMOVQ, IPOPQ } && E_dstM in { d_srcA, d_srcB };
bool M_stall = 0;
bool M_bubble = m_stat in { SADR, SINS, SHLT } || W_stat in { SADR, SINS, SHLT };
bool W_stall = W_stat in { SADR, SINS, SHLT };
bool W_bubble = 0;
";

const NB: &[u8] =
    b"# PIPE without bypassing: no value is forwarded to decode, which stalls until the registers it reads are
# written (CS:APP 3e, exercise 4.53).
word f_pc = [ M_icode == IJXX && !M_Cnd : M_valA; W_icode == IRET : W_valM; 1 : F_predPC; ];
word f_icode = [ imem_error : INOP; 1 : imem_icode; ];
word f_ifun = [ imem_error : FNONE; 1 : imem_ifun; ];
bool instr_valid = f_icode in { INOP, IHALT, IRRMOVQ, IIRMOVQ, IRMMOVQ, IMRMOVQ,
  IOPQ, IJXX, ICALL, IRET, IPUSHQ, IPOPQ };
word f_stat = [ imem_error : SADR; !instr_valid : SINS; f_icode == IHALT : SHLT; 1 : SAOK; ];
bool need_regids = f_icode in { IRRMOVQ, IOPQ, IPUSHQ, IPOPQ, IIRMOVQ, IRMMOVQ, IMRMOVQ };
bool need_valC = f_icode in { IIRMOVQ, IRMMOVQ, IMRMOVQ, IJXX, ICALL };
word f_predPC = [ f_icode in { IJXX, ICALL } : f_valC; 1 : f_valP; ];
word d_srcA = [ D_icode in { IRRMOVQ, IRMMOVQ, IOPQ, IPUSHQ } : D_rA;
  D_icode in { IPOPQ, IRET } : RRSP; 1 : RNONE; ];
word d_srcB = [ D_icode in { IOPQ, IRMMOVQ, IMRMOVQ } : D_rB;
  D_icode in { IPUSHQ, IPOPQ, ICALL, IRET } : RRSP; 1 : RNONE; ];
word d_dstE = [ D_icode in { IRRMOVQ, IIRMOVQ, IOPQ } : D_rB;
  D_icode in { IPUSHQ, IPOPQ, ICALL, IRET } : RRSP; 1 : RNONE; ];
word d_dstM = [ D_icode in { IMRMOVQ, IPOPQ } : D_rA; 1 : RNONE; ];
word d_valA = [ D_icode in { ICALL, IJXX } : D_valP; 1 : d_rvalA; ];
word d_valB = d_rvalB;
word aluA = [ E_icode in { IRRMOVQ, IOPQ } : E_valA; E_icode in { IIRMOVQ, IRMMOVQ, IMRMOVQ } : E_valC;
  E_icode in { ICALL, IPUSHQ } : -8; E_icode in { IRET, IPOPQ } : 8; ];
word aluB = [ E_icode in { IRMMOVQ, IMRMOVQ, IOPQ, ICALL, IPUSHQ, IRET, IPOPQ } : E_valB;
  E_icode in { IRRMOVQ, IIRMOVQ } : 0; ];
word alufun = [ E_icode == IOPQ : E_ifun; 1 : ALUADD; ];
bool set_cc = E_icode == IOPQ && !m_stat in { SADR, SINS, SHLT } && !W_stat in { SADR, SINS, SHLT };
word e_valA = E_valA;
word e_dstE = [ E_icode == IRRMOVQ && !e_Cnd : RNONE; 1 : E_dstE; ];
word mem_addr = [ M_icode in { IRMMOVQ, IPUSHQ, ICALL, IMRMOVQ } : M_valE;
  M_icode in { IPOPQ, IRET } : M_valA; ];
bool mem_read = M_icode in { IMRMOVQ, IPOPQ, IRET };
bool mem_write = M_icode in { IRMMOVQ, IPUSHQ, ICALL };
word m_stat = [ dmem_error : SADR; 1 : M_stat; ];
word w_dstE = W_dstE;
word w_valE = W_valE;
word w_dstM = W_dstM;
word w_valM = W_valM;
word Stat = [ W_stat == SBUB : SAOK; 1 : W_stat; ];
bool F_bubble = 0;
bool F_stall = (d_srcA != RNONE && d_srcA in { e_dstE, E_dstM, M_dstE, M_dstM, W_dstE, W_dstM } || d_srcB != RNONE && d_srcB in { e_dstE, E_dstM, M_dstE, M_dstM, W_dstE, W_dstM })
  || IRET in { D_icode, E_icode, M_icode };
bool D_stall = (d_srcA != RNONE && d_srcA in { e_dstE, E_dstM, M_dstE, M_dstM, W_dstE, W_dstM } || d_srcB != RNONE && d_srcB in { e_dstE, E_dstM, M_dstE, M_dstM, W_dstE, W_dstM }) && !(E_icode == IJXX && !e_Cnd);
bool D_bubble = (E_icode == IJXX && !e_Cnd)
  || !(d_srcA != RNONE && d_srcA in { e_dstE, E_dstM, M_dstE, M_dstM, W_dstE, W_dstM } || d_srcB != RNONE && d_srcB in { e_dstE, E_dstM, M_dstE, M_dstM, W_dstE, W_dstM })
     && IRET in { D_icode, E_icode, M_icode };
bool E_stall = 0;
bool E_bubble = (E_icode == IJXX && !e_Cnd)
  || (d_srcA != RNONE && d_srcA in { e_dstE, E_dstM, M_dstE, M_dstM, W_dstE, W_dstM } || d_srcB != RNONE && d_srcB in { e_dstE, E_dstM, M_dstE, M_dstM, W_dstE, W_dstM });
bool M_stall = 0;
bool M_bubble = m_stat in { SADR, SINS, SHLT } || W_stat in { SADR, SINS, SHLT };
bool W_stall = W_stat in { SADR, SINS, SHLT };
bool W_bubble = 0;
";

const LF: &[u8] =
    b"# PIPE with load forwarding: a loaded value that the next instruction stores or pushes is forwarded in
# execute, without a stall (CS:APP 3e, exercise 4.57).
word f_pc = [ M_icode == IJXX && !M_Cnd : M_valA; W_icode == IRET : W_valM; 1 : F_predPC; ];
word f_icode = [ imem_error : INOP; 1 : imem_icode; ];
word f_ifun = [ imem_error : FNONE; 1 : imem_ifun; ];
bool instr_valid = f_icode in { INOP, IHALT, IRRMOVQ, IIRMOVQ, IRMMOVQ, IMRMOVQ,
  IOPQ, IJXX, ICALL, IRET, IPUSHQ, IPOPQ };
word f_stat = [ imem_error : SADR; !instr_valid : SINS; f_icode == IHALT : SHLT; 1 : SAOK; ];
bool need_regids = f_icode in { IRRMOVQ, IOPQ, IPUSHQ, IPOPQ, IIRMOVQ, IRMMOVQ, IMRMOVQ };
bool need_valC = f_icode in { IIRMOVQ, IRMMOVQ, IMRMOVQ, IJXX, ICALL };
word f_predPC = [ f_icode in { IJXX, ICALL } : f_valC; 1 : f_valP; ];
word d_srcA = [ D_icode in { IRRMOVQ, IRMMOVQ, IOPQ, IPUSHQ } : D_rA;
  D_icode in { IPOPQ, IRET } : RRSP; 1 : RNONE; ];
word d_srcB = [ D_icode in { IOPQ, IRMMOVQ, IMRMOVQ } : D_rB;
  D_icode in { IPUSHQ, IPOPQ, ICALL, IRET } : RRSP; 1 : RNONE; ];
word d_dstE = [ D_icode in { IRRMOVQ, IIRMOVQ, IOPQ } : D_rB;
  D_icode in { IPUSHQ, IPOPQ, ICALL, IRET } : RRSP; 1 : RNONE; ];
word d_dstM = [ D_icode in { IMRMOVQ, IPOPQ } : D_rA; 1 : RNONE; ];
word d_valA = [ D_icode in { ICALL, IJXX } : D_valP; d_srcA == e_dstE : e_valE;
  d_srcA == M_dstM : m_valM; d_srcA == M_dstE : M_valE;
  d_srcA == W_dstM : W_valM; d_srcA == W_dstE : W_valE; 1 : d_rvalA; ];
word d_valB = [ d_srcB == e_dstE : e_valE; d_srcB == M_dstM : m_valM; d_srcB == M_dstE : M_valE;
  d_srcB == W_dstM : W_valM; d_srcB == W_dstE : W_valE; 1 : d_rvalB; ];
word aluA = [ E_icode in { IRRMOVQ, IOPQ } : E_valA; E_icode in { IIRMOVQ, IRMMOVQ, IMRMOVQ } : E_valC;
  E_icode in { ICALL, IPUSHQ } : -8; E_icode in { IRET, IPOPQ } : 8; ];
word aluB = [ E_icode in { IRMMOVQ, IMRMOVQ, IOPQ, ICALL, IPUSHQ, IRET, IPOPQ } : E_valB;
  E_icode in { IRRMOVQ, IIRMOVQ } : 0; ];
word alufun = [ E_icode == IOPQ : E_ifun; 1 : ALUADD; ];
bool set_cc = E_icode == IOPQ && !m_stat in { SADR, SINS, SHLT } && !W_stat in { SADR, SINS, SHLT };
word e_valA = [ M_dstM == E_srcA && E_icode in { IRMMOVQ, IPUSHQ } : m_valM; 1 : E_valA; ];
word e_dstE = [ E_icode == IRRMOVQ && !e_Cnd : RNONE; 1 : E_dstE; ];
word mem_addr = [ M_icode in { IRMMOVQ, IPUSHQ, ICALL, IMRMOVQ } : M_valE;
  M_icode in { IPOPQ, IRET } : M_valA; ];
bool mem_read = M_icode in { IMRMOVQ, IPOPQ, IRET };
bool mem_write = M_icode in { IRMMOVQ, IPUSHQ, ICALL };
word m_stat = [ dmem_error : SADR; 1 : M_stat; ];
word w_dstE = W_dstE;
word w_valE = W_valE;
word w_dstM = W_dstM;
word w_valM = W_valM;
word Stat = [ W_stat == SBUB : SAOK; 1 : W_stat; ];
bool F_bubble = 0;
bool F_stall = (E_icode in { IMRMOVQ, IPOPQ } && (E_dstM == d_srcB || E_dstM == d_srcA && !D_icode in { IRMMOVQ, IPUSHQ }))
  || IRET in { D_icode, E_icode, M_icode };
bool D_stall = (E_icode in { IMRMOVQ, IPOPQ } && (E_dstM == d_srcB || E_dstM == d_srcA && !D_icode in { IRMMOVQ, IPUSHQ }));
bool D_bubble = (E_icode == IJXX && !e_Cnd)
  || !(E_icode in { IMRMOVQ, IPOPQ } && (E_dstM == d_srcB || E_dstM == d_srcA && !D_icode in { IRMMOVQ, IPUSHQ }))
     && IRET in { D_icode, E_icode, M_icode };
bool E_stall = 0;
bool E_bubble = (E_icode == IJXX && !e_Cnd)
  || (E_icode in { IMRMOVQ, IPOPQ } && (E_dstM == d_srcB || E_dstM == d_srcA && !D_icode in { IRMMOVQ, IPUSHQ }));
bool M_stall = 0;
bool M_bubble = m_stat in { SADR, SINS, SHLT } || W_stat in { SADR, SINS, SHLT };
bool W_stall = W_stat in { SADR, SINS, SHLT };
bool W_bubble = 0;
";

const NT: &[u8] = b"# PIPE with conditional jumps predicted not taken (CS:APP 3e, exercise 4.55).
word f_pc = [ M_icode == IJXX && M_ifun != UNCOND && M_Cnd : M_valE; W_icode == IRET : W_valM; 1 : F_predPC; ];
word f_icode = [ imem_error : INOP; 1 : imem_icode; ];
word f_ifun = [ imem_error : FNONE; 1 : imem_ifun; ];
bool instr_valid = f_icode in { INOP, IHALT, IRRMOVQ, IIRMOVQ, IRMMOVQ, IMRMOVQ,
  IOPQ, IJXX, ICALL, IRET, IPUSHQ, IPOPQ };
word f_stat = [ imem_error : SADR; !instr_valid : SINS; f_icode == IHALT : SHLT; 1 : SAOK; ];
bool need_regids = f_icode in { IRRMOVQ, IOPQ, IPUSHQ, IPOPQ, IIRMOVQ, IRMMOVQ, IMRMOVQ };
bool need_valC = f_icode in { IIRMOVQ, IRMMOVQ, IMRMOVQ, IJXX, ICALL };
word f_predPC = [ f_icode == ICALL || f_icode == IJXX && f_ifun == UNCOND : f_valC; 1 : f_valP; ];
word d_srcA = [ D_icode in { IRRMOVQ, IRMMOVQ, IOPQ, IPUSHQ } : D_rA;
  D_icode in { IPOPQ, IRET } : RRSP; 1 : RNONE; ];
word d_srcB = [ D_icode in { IOPQ, IRMMOVQ, IMRMOVQ } : D_rB;
  D_icode in { IPUSHQ, IPOPQ, ICALL, IRET } : RRSP; 1 : RNONE; ];
word d_dstE = [ D_icode in { IRRMOVQ, IIRMOVQ, IOPQ } : D_rB;
  D_icode in { IPUSHQ, IPOPQ, ICALL, IRET } : RRSP; 1 : RNONE; ];
word d_dstM = [ D_icode in { IMRMOVQ, IPOPQ } : D_rA; 1 : RNONE; ];
word d_valA = [ D_icode in { ICALL, IJXX } : D_valP; d_srcA == e_dstE : e_valE;
  d_srcA == M_dstM : m_valM; d_srcA == M_dstE : M_valE;
  d_srcA == W_dstM : W_valM; d_srcA == W_dstE : W_valE; 1 : d_rvalA; ];
word d_valB = [ d_srcB == e_dstE : e_valE; d_srcB == M_dstM : m_valM; d_srcB == M_dstE : M_valE;
  d_srcB == W_dstM : W_valM; d_srcB == W_dstE : W_valE; 1 : d_rvalB; ];
word aluA = [ E_icode in { IRRMOVQ, IOPQ } : E_valA; E_icode in { IIRMOVQ, IRMMOVQ, IMRMOVQ, IJXX } : E_valC;
  E_icode in { ICALL, IPUSHQ } : -8; E_icode in { IRET, IPOPQ } : 8; ];
word aluB = [ E_icode in { IRMMOVQ, IMRMOVQ, IOPQ, ICALL, IPUSHQ, IRET, IPOPQ } : E_valB;
  E_icode in { IRRMOVQ, IIRMOVQ, IJXX } : 0; ];
word alufun = [ E_icode == IOPQ : E_ifun; 1 : ALUADD; ];
bool set_cc = E_icode == IOPQ && !m_stat in { SADR, SINS, SHLT } && !W_stat in { SADR, SINS, SHLT };
word e_valA = E_valA;
word e_dstE = [ E_icode == IRRMOVQ && !e_Cnd : RNONE; 1 : E_dstE; ];
word mem_addr = [ M_icode in { IRMMOVQ, IPUSHQ, ICALL, IMRMOVQ } : M_valE;
  M_icode in { IPOPQ, IRET } : M_valA; ];
bool mem_read = M_icode in { IMRMOVQ, IPOPQ, IRET };
bool mem_write = M_icode in { IRMMOVQ, IPUSHQ, ICALL };
word m_stat = [ dmem_error : SADR; 1 : M_stat; ];
word w_dstE = W_dstE;
word w_valE = W_valE;
word w_dstM = W_dstM;
word w_valM = W_valM;
word Stat = [ W_stat == SBUB : SAOK; 1 : W_stat; ];
bool F_bubble = 0;
bool F_stall = (E_icode in { IMRMOVQ, IPOPQ } && E_dstM in { d_srcA, d_srcB })
  || IRET in { D_icode, E_icode, M_icode };
bool D_stall = (E_icode in { IMRMOVQ, IPOPQ } && E_dstM in { d_srcA, d_srcB });
bool D_bubble = (E_icode == IJXX && E_ifun != UNCOND && e_Cnd)
  || !(E_icode in { IMRMOVQ, IPOPQ } && E_dstM in { d_srcA, d_srcB })
     && IRET in { D_icode, E_icode, M_icode };
bool E_stall = 0;
bool E_bubble = (E_icode == IJXX && E_ifun != UNCOND && e_Cnd)
  || (E_icode in { IMRMOVQ, IPOPQ } && E_dstM in { d_srcA, d_srcB });
bool M_stall = 0;
bool M_bubble = m_stat in { SADR, SINS, SHLT } || W_stat in { SADR, SINS, SHLT };
bool W_stall = W_stat in { SADR, SINS, SHLT };
bool W_bubble = 0;
";

const BT: &[u8] =
    b"# PIPE with backward conditional jumps predicted taken and forward ones not taken (CS:APP 3e, exercise 4.56).
word f_pc = [ M_icode == IJXX && M_ifun != UNCOND && M_valE < M_valA && !M_Cnd : M_valA;
  M_icode == IJXX && M_ifun != UNCOND && M_valE >= M_valA && M_Cnd : M_valE;
  W_icode == IRET : W_valM; 1 : F_predPC; ];
word f_icode = [ imem_error : INOP; 1 : imem_icode; ];
word f_ifun = [ imem_error : FNONE; 1 : imem_ifun; ];
bool instr_valid = f_icode in { INOP, IHALT, IRRMOVQ, IIRMOVQ, IRMMOVQ, IMRMOVQ,
  IOPQ, IJXX, ICALL, IRET, IPUSHQ, IPOPQ };
word f_stat = [ imem_error : SADR; !instr_valid : SINS; f_icode == IHALT : SHLT; 1 : SAOK; ];
bool need_regids = f_icode in { IRRMOVQ, IOPQ, IPUSHQ, IPOPQ, IIRMOVQ, IRMMOVQ, IMRMOVQ };
bool need_valC = f_icode in { IIRMOVQ, IRMMOVQ, IMRMOVQ, IJXX, ICALL };
word f_predPC = [ f_icode == ICALL || f_icode == IJXX && (f_ifun == UNCOND || f_valC < f_valP) : f_valC;
  1 : f_valP; ];
word d_srcA = [ D_icode in { IRRMOVQ, IRMMOVQ, IOPQ, IPUSHQ } : D_rA;
  D_icode in { IPOPQ, IRET } : RRSP; 1 : RNONE; ];
word d_srcB = [ D_icode in { IOPQ, IRMMOVQ, IMRMOVQ } : D_rB;
  D_icode in { IPUSHQ, IPOPQ, ICALL, IRET } : RRSP; 1 : RNONE; ];
word d_dstE = [ D_icode in { IRRMOVQ, IIRMOVQ, IOPQ } : D_rB;
  D_icode in { IPUSHQ, IPOPQ, ICALL, IRET } : RRSP; 1 : RNONE; ];
word d_dstM = [ D_icode in { IMRMOVQ, IPOPQ } : D_rA; 1 : RNONE; ];
word d_valA = [ D_icode in { ICALL, IJXX } : D_valP; d_srcA == e_dstE : e_valE;
  d_srcA == M_dstM : m_valM; d_srcA == M_dstE : M_valE;
  d_srcA == W_dstM : W_valM; d_srcA == W_dstE : W_valE; 1 : d_rvalA; ];
word d_valB = [ d_srcB == e_dstE : e_valE; d_srcB == M_dstM : m_valM; d_srcB == M_dstE : M_valE;
  d_srcB == W_dstM : W_valM; d_srcB == W_dstE : W_valE; 1 : d_rvalB; ];
word aluA = [ E_icode in { IRRMOVQ, IOPQ } : E_valA; E_icode in { IIRMOVQ, IRMMOVQ, IMRMOVQ, IJXX } : E_valC;
  E_icode in { ICALL, IPUSHQ } : -8; E_icode in { IRET, IPOPQ } : 8; ];
word aluB = [ E_icode in { IRMMOVQ, IMRMOVQ, IOPQ, ICALL, IPUSHQ, IRET, IPOPQ } : E_valB;
  E_icode in { IRRMOVQ, IIRMOVQ, IJXX } : 0; ];
word alufun = [ E_icode == IOPQ : E_ifun; 1 : ALUADD; ];
bool set_cc = E_icode == IOPQ && !m_stat in { SADR, SINS, SHLT } && !W_stat in { SADR, SINS, SHLT };
word e_valA = E_valA;
word e_dstE = [ E_icode == IRRMOVQ && !e_Cnd : RNONE; 1 : E_dstE; ];
word mem_addr = [ M_icode in { IRMMOVQ, IPUSHQ, ICALL, IMRMOVQ } : M_valE;
  M_icode in { IPOPQ, IRET } : M_valA; ];
bool mem_read = M_icode in { IMRMOVQ, IPOPQ, IRET };
bool mem_write = M_icode in { IRMMOVQ, IPUSHQ, ICALL };
word m_stat = [ dmem_error : SADR; 1 : M_stat; ];
word w_dstE = W_dstE;
word w_valE = W_valE;
word w_dstM = W_dstM;
word w_valM = W_valM;
word Stat = [ W_stat == SBUB : SAOK; 1 : W_stat; ];
bool F_bubble = 0;
bool F_stall = (E_icode in { IMRMOVQ, IPOPQ } && E_dstM in { d_srcA, d_srcB })
  || IRET in { D_icode, E_icode, M_icode };
bool D_stall = (E_icode in { IMRMOVQ, IPOPQ } && E_dstM in { d_srcA, d_srcB });
bool D_bubble = (E_icode == IJXX && E_ifun != UNCOND && (E_valC < E_valA && !e_Cnd || E_valC >= E_valA && e_Cnd))
  || !(E_icode in { IMRMOVQ, IPOPQ } && E_dstM in { d_srcA, d_srcB })
     && IRET in { D_icode, E_icode, M_icode };
bool E_stall = 0;
bool E_bubble = (E_icode == IJXX && E_ifun != UNCOND && (E_valC < E_valA && !e_Cnd || E_valC >= E_valA && e_Cnd))
  || (E_icode in { IMRMOVQ, IPOPQ } && E_dstM in { d_srcA, d_srcB });
bool M_stall = 0;
bool M_bubble = m_stat in { SADR, SINS, SHLT } || W_stat in { SADR, SINS, SHLT };
bool W_stall = W_stat in { SADR, SINS, SHLT };
bool W_bubble = 0;
";

const FU: &[u8] = b"# PIPE with the instruction iaddq (CS:APP 3e, exercise 4.54).
word f_pc = [ M_icode == IJXX && !M_Cnd : M_valA; W_icode == IRET : W_valM; 1 : F_predPC; ];
word f_icode = [ imem_error : INOP; 1 : imem_icode; ];
word f_ifun = [ imem_error : FNONE; 1 : imem_ifun; ];
bool instr_valid = f_icode in { INOP, IHALT, IRRMOVQ, IIRMOVQ, IRMMOVQ, IMRMOVQ,
  IOPQ, IJXX, ICALL, IRET, IPUSHQ, IPOPQ, IIADDQ };
word f_stat = [ imem_error : SADR; !instr_valid : SINS; f_icode == IHALT : SHLT; 1 : SAOK; ];
bool need_regids = f_icode in { IRRMOVQ, IOPQ, IPUSHQ, IPOPQ, IIRMOVQ, IRMMOVQ, IMRMOVQ, IIADDQ };
bool need_valC = f_icode in { IIRMOVQ, IRMMOVQ, IMRMOVQ, IJXX, ICALL, IIADDQ };
word f_predPC = [ f_icode in { IJXX, ICALL } : f_valC; 1 : f_valP; ];
word d_srcA = [ D_icode in { IRRMOVQ, IRMMOVQ, IOPQ, IPUSHQ } : D_rA;
  D_icode in { IPOPQ, IRET } : RRSP; 1 : RNONE; ];
word d_srcB = [ D_icode in { IOPQ, IRMMOVQ, IMRMOVQ, IIADDQ } : D_rB;
  D_icode in { IPUSHQ, IPOPQ, ICALL, IRET } : RRSP; 1 : RNONE; ];
word d_dstE = [ D_icode in { IRRMOVQ, IIRMOVQ, IOPQ, IIADDQ } : D_rB;
  D_icode in { IPUSHQ, IPOPQ, ICALL, IRET } : RRSP; 1 : RNONE; ];
word d_dstM = [ D_icode in { IMRMOVQ, IPOPQ } : D_rA; 1 : RNONE; ];
word d_valA = [ D_icode in { ICALL, IJXX } : D_valP; d_srcA == e_dstE : e_valE;
  d_srcA == M_dstM : m_valM; d_srcA == M_dstE : M_valE;
  d_srcA == W_dstM : W_valM; d_srcA == W_dstE : W_valE; 1 : d_rvalA; ];
word d_valB = [ d_srcB == e_dstE : e_valE; d_srcB == M_dstM : m_valM; d_srcB == M_dstE : M_valE;
  d_srcB == W_dstM : W_valM; d_srcB == W_dstE : W_valE; 1 : d_rvalB; ];
word aluA = [ E_icode in { IRRMOVQ, IOPQ } : E_valA; E_icode in { IIRMOVQ, IRMMOVQ, IMRMOVQ, IIADDQ } : E_valC;
  E_icode in { ICALL, IPUSHQ } : -8; E_icode in { IRET, IPOPQ } : 8; ];
word aluB = [ E_icode in { IRMMOVQ, IMRMOVQ, IOPQ, ICALL, IPUSHQ, IRET, IPOPQ, IIADDQ } : E_valB;
  E_icode in { IRRMOVQ, IIRMOVQ } : 0; ];
word alufun = [ E_icode == IOPQ : E_ifun; 1 : ALUADD; ];
bool set_cc = E_icode in { IOPQ, IIADDQ } && !m_stat in { SADR, SINS, SHLT } && !W_stat in { SADR, SINS, SHLT };
word e_valA = E_valA;
word e_dstE = [ E_icode == IRRMOVQ && !e_Cnd : RNONE; 1 : E_dstE; ];
word mem_addr = [ M_icode in { IRMMOVQ, IPUSHQ, ICALL, IMRMOVQ } : M_valE;
  M_icode in { IPOPQ, IRET } : M_valA; ];
bool mem_read = M_icode in { IMRMOVQ, IPOPQ, IRET };
bool mem_write = M_icode in { IRMMOVQ, IPUSHQ, ICALL };
word m_stat = [ dmem_error : SADR; 1 : M_stat; ];
word w_dstE = W_dstE;
word w_valE = W_valE;
word w_dstM = W_dstM;
word w_valM = W_valM;
word Stat = [ W_stat == SBUB : SAOK; 1 : W_stat; ];
bool F_bubble = 0;
bool F_stall = E_icode in { IMRMOVQ, IPOPQ } && E_dstM in { d_srcA, d_srcB }
  || IRET in { D_icode, E_icode, M_icode };
bool D_stall = E_icode in { IMRMOVQ, IPOPQ } && E_dstM in { d_srcA, d_srcB };
bool D_bubble = E_icode == IJXX && !e_Cnd
  || !(E_icode in { IMRMOVQ, IPOPQ } && E_dstM in { d_srcA, d_srcB })
     && IRET in { D_icode, E_icode, M_icode };
bool E_stall = 0;
bool E_bubble = E_icode == IJXX && !e_Cnd
  || E_icode in { IMRMOVQ, IPOPQ } && E_dstM in { d_srcA, d_srcB };
bool M_stall = 0;
bool M_bubble = m_stat in { SADR, SINS, SHLT } || W_stat in { SADR, SINS, SHLT };
bool W_stall = W_stat in { SADR, SINS, SHLT };
bool W_bubble = 0;
";
